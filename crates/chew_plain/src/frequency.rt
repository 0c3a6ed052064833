ghost use Rattle.std.specs.Prelude.{◌≡◌, ◌≤◌};
ghost use Rattle.chew_spec_dictionary.specs.Frequency.{fall, rise, update};

use chew_syllable::GREATEST_FREQ;
use std::cmp::{max, min};

/// A pair that is learnt again after less than this many learns was learnt soon before.
const SOON: u64 = 4_000;

/// A pair that is learnt again after this many learns or more was learnt long before.
const LATE: u64 = 50_000;

/// Up by a part of the way from `orig` to `max`: at or above `max` by at most the step, and below it by at least the
/// step.
fn rise(freq: u32, orig: u32, max: u32, part: u32, step: u32) -> u32
    requires order { orig ≤ max }
    requires freq { freq ≤ 99_999_999 }
    requires max { max ≤ 99_999_999 }
    requires part { 1 ≤ part }
    requires step { step ≤ 10 }
    ensures value { result ≡ rise freq orig max part step }
{
    let way = (max - orig) / part + 1;
    if freq >= max {
        freq + min(way, step)
    } else {
        freq + std::cmp::max(way, step)
    }
}

/// A fifth of what is above `orig`, at least 10, goes; but not below `orig`.
fn fall(freq: u32, orig: u32) -> u32
    ensures value { result ≡ fall freq orig }
{
    let part = freq.saturating_sub(orig) / 5;
    max(freq.saturating_sub(max(part, 10)), orig)
}

/// The frequency of a pair that is learnt again, `ticks` learns after the last time. `orig` is the system's frequency
/// of the pair, and `max` the greatest of its key; each is at most 99,999,999. It takes no memory.
#[tactic(auto, unfolding(chew_spec_dictionary::specs::Frequency::update))]
pub fn next_freq(freq: u32, orig: u32, max: u32, ticks: u64) -> u32
    requires order { orig ≤ max }
    requires freq { freq ≤ 99_999_999 }
    requires max { max ≤ 99_999_999 }
    ensures value { result ≡ update freq orig max ticks }
    ensures range { result ≤ 99_999_999 }
{
    if ticks < SOON {
        min(rise(freq, orig, max, 5, 10), GREATEST_FREQ)
    } else if ticks < LATE {
        min(rise(freq, orig, max, 10, 5), GREATEST_FREQ)
    } else {
        min(fall(freq, orig), GREATEST_FREQ)
    }
}
