//! Thousands of calls by a fixed rule, freezes and installs among them: the layers answer as the plain map does.

ghost use Rattle.std.specs.Prelude.{◌≡◌, length};

use crate::both::Both;
use crate::replies::{Told, told_by};
use crate::rule::{CAP, call_of_number, next, ten_syllables};
use crate::same_map::begin_anew;
use chew_layer_samples::InLayers;
use chew_syllable::Syllable;
use std::alloc::Global;
use std::test::Fail;

/// Which number the first call is after.
const FIRST: u32 = 3;

/// Makes the call of a user that a number stands for. Whether both answer alike.
pub(crate) fn call_alike(both: &mut Both, run: &[Syllable], number: u32) -> Result<bool, Fail>
    requires { length run.now ≡ 10 }
{
    match call_of_number(run, number) {
        Some(call) => both.make(&call),
        None => Err(Fail::new("no call")),
    }
}

/// Makes the call that a number stands for: one in 32 is a freeze, and one in 64 an install. Whether both answer alike.
fn answer_alike(both: &mut Both, run: &[Syllable], number: u32) -> Result<bool, Fail>
    requires { length run.now ≡ 10 }
{
    match number / 1024 {
        3 | 40 => both.freeze(),
        22 => both.install(),
        _ => call_alike(both, run, number),
    }
}

/// Makes so many calls. Whether both answer alike.
fn stay_alike(both: &mut Both, run: &[Syllable], calls: u32) -> Result<bool, Fail>
    requires { length run.now ≡ 10 }
{
    let mut number = FIRST;
    for _call in 0..calls {
        number = next(number);
        if !answer_alike(both, run, number)? {
            return Ok(false);
        }
    }
    Ok(true)
}

/// Makes so many calls of users. Whether both answer alike.
fn users_stay_alike(both: &mut Both, run: &[Syllable], calls: u32) -> Result<bool, Fail>
    requires { length run.now ≡ 10 }
{
    let mut number = 2;
    for _call in 0..calls {
        number = next(number);
        if !call_alike(both, run, number)? {
            return Ok(false);
        }
    }
    Ok(true)
}

/// Freezes a last time, and puts layers over the merged map alone. Whether it has the rows of the plain map, and the layers
/// go on alike.
fn end_alike(alloc: Global, both: &mut Both, run: &[Syllable]) -> Result<bool, Fail>
    requires { length run.now ≡ 10 }
{
    if !both.install()? {
        return Ok(false);
    }
    if !both.freeze()? {
        return Ok(false);
    }
    if !begin_anew(alloc, both, CAP)? {
        return Ok(false);
    }
    users_stay_alike(both, run, 600)
}

/// Whether both stay alike from the map of five rows on, after so many learns.
fn stay_alike_from(alloc: Global, life: u64) -> Result<bool, Fail> {
    let run = ten_syllables();
    let mut both = Both::five(alloc, life, CAP)?;
    if !stay_alike(&mut both, &run, 3000)? {
        return Ok(false);
    }
    end_alike(alloc, &mut both, &run)
}

/// Makes the call of a user that a number stands for. What the layers tell.
fn told(layers: &mut InLayers, run: &[Syllable], number: u32) -> Result<Option<Told>, Fail>
    requires { length run.now ≡ 10 }
{
    match call_of_number(run, number) {
        Some(call) => Ok(told_by(&layers.make(&call)?)),
        None => Err(Fail::new("no call")),
    }
}

/// Whether the layers tell this within a hundred calls.
fn is_told(alloc: Global, run: &[Syllable], wanted: Told) -> Result<bool, Fail>
    requires { length run.now ≡ 10 }
{
    let mut layers = InLayers::empty(alloc, 0, CAP)?;
    let mut number = FIRST;
    for _call in 0..100 {
        number = next(number);
        if told(&mut layers, run, number)? == Some(wanted) {
            return Ok(true);
        }
    }
    Ok(false)
}

#[test]
fn the_calls_get_every_reply_to_a_user(rt: HostRuntime) -> Result<(), Fail> {
    let run = ten_syllables();
    for wanted in [
        Told::Shown,
        Told::Hidden,
        Told::Learned,
        Told::Full,
        Told::Forgot,
        Told::NotThere,
        Told::Hid,
    ] {
        assert!(rt; is_told(rt.alloc(), &run, wanted)?);
    }
    Ok(())
}

#[test]
fn many_calls_are_answered_as_the_plain_map_does(rt: HostRuntime) -> Result<(), Fail> {
    assert!(rt; stay_alike_from(rt.alloc(), 0)?);
    Ok(())
}

#[test]
fn many_calls_after_some_4000_learns_are_answered_as_the_plain_map_does(
    rt: HostRuntime,
) -> Result<(), Fail> {
    assert!(rt; stay_alike_from(rt.alloc(), 3990)?);
    Ok(())
}

#[test]
fn many_calls_after_some_50000_learns_are_answered_as_the_plain_map_does(
    rt: HostRuntime,
) -> Result<(), Fail> {
    assert!(rt; stay_alike_from(rt.alloc(), 49_990)?);
    Ok(())
}

#[test]
fn many_calls_at_the_end_of_life_are_answered_as_the_plain_map_does(
    rt: HostRuntime,
) -> Result<(), Fail> {
    assert!(rt; stay_alike_from(rt.alloc(), u64::MAX - 8)?);
    Ok(())
}
