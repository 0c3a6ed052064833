//! Calls of layers that are refused memory once: each leaves the layers as they were, and is answered as the plain map answers
//! it when it is made again. So the test passes whichever allocation is refused, as long as it is one alone.

ghost use Rattle.std.specs.Prelude.{◌≡◌, length};

use crate::both::Both;
use crate::many_calls::call_alike;
use crate::rule::{CAP, next, ten_syllables};
use chew_layer_samples::look;
use chew_syllable::Syllable;
use std::alloc::Global;
use std::test::Fail;

/// How many calls are made.
const CALLS: u32 = 48;

/// The map of no rows twice. It is asked for again where it is refused.
fn empty(alloc: Global) -> Result<Both, Fail> {
    match Both::empty(alloc, 0, CAP) {
        Ok(both) => Ok(both),
        Err(_) => Ok(Both::empty(alloc, 0, CAP)?),
    }
}

/// Looks up the first syllables, once more where it is refused. Whether both find the same.
fn find(both: &mut Both, run: &[Syllable]) -> Result<bool, Fail>
    requires { length run.now ≡ 10 }
{
    match look(&run[..4]) {
        Some(call) => both.make(&call),
        None => Err(Fail::new("no run")),
    }
}

/// Makes a call: of each twelve the fifth and the eighth are freezes, and the tenth is an install. Whether both answer alike,
/// and find the same then.
fn step(both: &mut Both, run: &[Syllable], count: u32, number: u32) -> Result<bool, Fail>
    requires { length run.now ≡ 10 }
{
    let alike = match count % 12 {
        4 | 7 => both.freeze()?,
        9 => both.install()?,
        _ => call_alike(both, run, number)?,
    };
    if !alike {
        return Ok(false);
    }
    find(both, run)
}

/// Makes all calls. Whether both stay alike.
fn stay_alike(both: &mut Both, run: &[Syllable]) -> Result<bool, Fail>
    requires { length run.now ≡ 10 }
{
    let mut number = 1;
    for count in 0..CALLS {
        number = next(number);
        if !step(both, run, count, number)? {
            return Ok(false);
        }
    }
    Ok(true)
}

#[test]
fn a_refused_call_leaves_the_layers_as_they_were(rt: HostRuntime) -> Result<(), Fail> {
    let mut both = empty(rt.alloc())?;
    assert!(rt; stay_alike(&mut both, &ten_syllables())?);
    Ok(())
}
