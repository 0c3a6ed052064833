//! Thousands of calls by a fixed rule: the user's dictionary answers as a list of pairs does.

ghost use Rattle.std.specs.Prelude.{◌≡◌, ◌≤◌, length};

use crate::calls::{are_same, forget, hide, learn, look};
use crate::five_rows::{CE, SHI, are_apart, five, syllable};
use crate::listed::Listed;
use chew_plain::{Hit, Plain};
use chew_syllable::{KeyRow, Syllable};
use std::alloc::Global;
use std::cmp::min;
use std::process::Abort;

/// The pairs that both hold at most.
const CAP: u32 = 24;

/// A number below 65,536 after another. It takes each value once before it comes back.
fn next(number: u32) -> u32 {
    number.wrapping_mul(25_173).wrapping_add(13_849) % 65_536
}

/// A text of so many characters, 1 to 3.
fn text_of(count: usize, number: u32) -> &'static str {
    match (count, number % 4) {
        (1, 0) => "測",
        (1, 1) => "試",
        (1, _) => "是",
        (2, 0) => "測試",
        (2, 1) => "策是",
        (2, 2) => "試試",
        (2, _) => "是策",
        (_, 0) => "測試策",
        (_, _) => "是策測",
    }
}

/// A system's frequency of a pair.
fn orig_of(number: u32) -> u32
    ensures { result ≤ 9318 }
{
    match number % 4 {
        0 => 0,
        1 => 40,
        2 => 300,
        _ => 9318,
    }
}

/// Whether a hit tells of a pair of the list, under its interval of the run.
fn is_told(listed: &Listed, run: &[Syllable], hit: &Hit) -> bool {
    let start = hit.start as usize;
    let end = start + hit.len as usize;
    if end > run.len() {
        return false;
    }
    listed.has(&run[start..end], hit)
}

/// How many pairs of the list are under the intervals at the front of a run.
fn count_at_front(listed: &Listed, run: &[Syllable]) -> usize {
    let mut count: usize = 0;
    for len in 1..min(11, run.len()) + 1 {
        count = count.saturating_add(listed.count_under(&run[..len]));
    }
    count
}

/// How many pairs of the list are under all intervals of a run.
fn count_in(listed: &Listed, run: &[Syllable]) -> usize {
    let mut count: usize = 0;
    for start in 0..run.len() {
        count = count.saturating_add(count_at_front(listed, &run[start..]));
    }
    count
}

/// Whether a hit stands before another: by start, length, frequency falling, and the phrases' bytes.
fn is_before(hit: &Hit, other: &Hit) -> bool {
    if hit.start != other.start {
        return hit.start < other.start;
    }
    if hit.len != other.len {
        return hit.len < other.len;
    }
    if hit.freq != other.freq {
        return hit.freq > other.freq;
    }
    hit.phrase.text() < other.phrase.text()
}

/// Whether each hit stands before the next.
fn are_in_order(hits: &[Hit]) -> bool {
    for place in 1..hits.len() {
        if !is_before(&hits[place - 1], &hits[place]) {
            return false;
        }
    }
    true
}

/// Whether the hits are the pairs of the list under the intervals of the run.
fn are_found(listed: &Listed, run: &[Syllable], hits: &[Hit]) -> bool {
    hits.len() == count_in(listed, run)
        && hits.iter().all(|hit| is_told(listed, run, hit))
        && are_in_order(hits)
}

/// Makes the call of a number. Whether both answer alike.
fn answer_alike(
    rt: &impl Abort,
    plain: &mut Plain,
    listed: &mut Listed,
    run: &[Syllable],
    number: u32,
) -> bool
    requires { length run.now ≡ 10 }
{
    let start = (number / 4 % 8) as usize;
    let key = &run[start..start + 1 + (number / 32 % 3) as usize];
    let text = text_of(key.len(), number / 128);
    match number / 4096 {
        0..=8 => {
            let orig = orig_of(number / 512);
            learn_alike(rt, plain, listed, (key, text), orig, orig + number % 1000)
        }
        9..=11 if key.len() > 1 => {
            are_same(&hide(rt, plain, key, text), &listed.hide(rt, key, text))
        }
        12..=13 => are_found(listed, run, look(rt, plain, run).list()),
        _ => are_same(&forget(rt, plain, key, text), &listed.forget(key, text)),
    }
}

/// Learns a pair. Whether both answer alike.
fn learn_alike(
    rt: &impl Abort,
    plain: &mut Plain,
    listed: &mut Listed,
    (key, text): (&[Syllable], &str),
    orig: u32,
    peak: u32,
) -> bool {
    let reply = learn(rt, plain, key, text, orig, peak);
    are_same(&reply, &listed.learn(rt, key, text, orig, peak))
}

/// Makes so many calls. Whether both answer alike, and have as many pairs and learns, after each.
fn stay_alike(
    rt: &impl Abort,
    plain: &mut Plain,
    listed: &mut Listed,
    run: &[Syllable],
    calls: u32,
) -> bool
    requires { length run.now ≡ 10 }
{
    let mut number = 1;
    for _call in 0..calls {
        number = next(number);
        if !answer_alike(rt, plain, listed, run, number) {
            return false;
        }
        if plain.pairs() as usize != listed.count() {
            return false;
        }
        if plain.life() != listed.life() {
            return false;
        }
    }
    true
}

/// Ten syllables, each of three after each.
fn ten_syllables() -> [Syllable; 10] {
    let ce = syllable(CE);
    let shi = syllable(SHI);
    let other = Syllable::default();
    [ce, ce, shi, ce, other, shi, shi, other, other, ce]
}

/// The five rows, listed.
fn five_listed(rt: &impl Abort, alloc: Global, rows: &[KeyRow], life: u64) -> Listed {
    let mut listed = Listed::new(alloc, life, CAP as usize);
    for row in rows {
        listed.hold(rt, row.key.list(), row.phrase.text(), row.freq, 0, false);
    }
    listed
}

/// Whether both stay alike from the five rows on, so many learns after they were learnt.
fn stay_alike_from(rt: &impl Abort, alloc: Global, life: u64) -> bool {
    let rows = five(alloc).expect(rt, "memory");
    assert!(rt; rows.len() <= 5);
    assert!(rt; are_apart(&rows));
    let mut listed = five_listed(rt, alloc, &rows, life);
    let mut plain = Plain::of(rows, life, CAP).expect(rt, "memory");
    stay_alike(rt, &mut plain, &mut listed, &ten_syllables(), 6000)
}

#[test]
fn many_calls_are_answered_as_a_list_does(rt: HostRuntime) {
    assert!(rt; stay_alike_from(&rt, rt.alloc(), 0));
}

#[test]
fn many_calls_long_after_are_answered_as_a_list_does(rt: HostRuntime) {
    assert!(rt; stay_alike_from(&rt, rt.alloc(), 3990));
    assert!(rt; stay_alike_from(&rt, rt.alloc(), 49_990));
}

#[test]
fn many_calls_at_the_end_of_life_are_answered_as_a_list_does(rt: HostRuntime) {
    assert!(rt; stay_alike_from(&rt, rt.alloc(), u64::MAX - 3));
}
