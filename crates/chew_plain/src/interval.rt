ghost use Rattle.std.specs.Prelude.{◌≡◌, ◌+◌, ◌<◌, ◌≤◌, ◌++◌, All, IfOk, OnOk};
ghost use Rattle.chew_spec_dictionary.specs.Look as look;
ghost use Rattle.chew_plain.specs.Look.{intervals_from};

use chew_syllable::{KEY_LIMIT, NoMemory};
use std::alloc::Global;
use std::cmp::min;
use std::marker::Model;

/// Some syllables of a run that follow one another.
#[derive(Clone, Copy, Debug, Drop)]
pub struct Interval {
    /// The place in the run of the first syllable.
    pub start: usize,
    /// How many syllables they are.
    pub len: usize,
}

impl Model for Interval {
    ghost use Rattle.std.specs.Prelude.{◌≤◌, ◌+◌};
    ghost use Rattle.chew_spec_dictionary.specs.Look as look;

    ghost Value = { look.Interval };

    ghost view = { λ at. record { start = at.start; len = at.len } };

    ghost inverse = { λ at. record { start = at.start; len = at.len } };

    ghost invariant = { λ at. at.start + at.len ≤ 39 };
}

/// The intervals of 1 to 11 syllables of a run of so many, by their starts, then their lengths.
pub fn intervals(alloc: Global, count: usize) -> Result<Vec<Interval>, NoMemory>
    requires { count ≤ 39 }
    ensures value { IfOk result (λ list. list.items ≡ look.intervals count) }
    ensures each { IfOk result (λ list. All (λ at. (1 ≤ at.len) × (at.len ≤ 11) × (at.start + at.len ≤ count)) list.items) }
{
    let mut list = Vec::new(alloc);
    for start in 0..count {
        push_from(&mut list, count, start)?;
    }
    Ok(list)
}

/// Adds the intervals that begin at a place.
fn push_from(list: &mut Vec<Interval>, count: usize, start: usize) -> Result<(), NoMemory>
    requires short { count ≤ 39 }
    requires inside { start < count }
    ensures { OnOk result (list.new.items ≡ list.old.items ++ intervals_from count start) }
{
    let limit = min(KEY_LIMIT, count - start);
    for len in 1..limit + 1 {
        list.push(Interval { start, len })?;
    }
    Ok(())
}
