ghost use Rattle.std.specs.Prelude.{◌≡◌, ℕ, ◌-◌, ◌<◌, ◌≤◌, All, IfOk, IfSome, List, OnOk, length};
ghost use Rattle.std.specs.Cmp.Lexicographic.{slice_cmp};
ghost use Rattle.std.specs.Ordering.{is_lt, nat_cmp, ordering_then};
ghost use Rattle.chew_spec_syllable.specs.Row.{Row};
ghost use Rattle.chew_phrasing.specs.FirstPlace.{AreOfKey, IsFirstPlace, IsKnown, rows_between};

use chew_plain::{Lexicon, RowRef};
use chew_syllable::NoMemory;
use std::marker::Model;

/// The places of a key's rows, and that of the one which is shown first.
#[derive(Drop)]
pub(crate) struct FirstPlace {
    start: u32,
    end: u32,
    place: u32,
}

impl Model for FirstPlace {
    ghost use Rattle.chew_phrasing.specs.FirstPlace as spec;

    ghost Value = { spec.FirstPlace };

    ghost view = { λ first. record { start = first.start; end = first.end; place = first.place } };
}

/// The place of a key's row that is shown first, by the places of its rows. It is found once, and kept among `firsts`.
pub(crate) fn first_place<L: Lexicon>(
    system: &L,
    start: u32,
    end: u32,
    firsts: &mut Vec<FirstPlace>,
) -> Result<u32, NoMemory>
    requires some { start < end }
    requires key { (key : List ℕ) × AreOfKey (L.rows system.now) start end key }
    requires firsts { All (IsKnown (L.rows system.now)) firsts.old.items }
    ensures firsts { OnOk result (All (IsKnown (L.rows system.now)) firsts.new.items) }
    ensures place { IfOk result (λ place. IsFirstPlace (L.rows system.now) (rows_between (L.rows system.now) start end) place) }
{
    if let Some(place) = known(firsts.as_slice(), start, end) {
        return Ok(place);
    }
    let place = shown_first(system, start, end);
    firsts.push(FirstPlace { start, end, place })?;
    Ok(place)
}

/// The place that is kept for these places, where one is.
fn known(firsts: &[FirstPlace], start: u32, end: u32) -> Option<u32>
    ensures { IfSome result (λ place. (rows : List Row) → All (IsKnown rows) firsts.now → IsFirstPlace rows (rows_between rows start end) place) }
{
    match firsts {
        [] => None,
        [first, rest @ ..] => {
            if first.start == start && first.end == end {
                Some(first.place)
            } else {
                known(rest, start, end)
            }
        }
    }
}

/// The place of the row that is shown first of those from a place up to another.
fn shown_first<L: Lexicon>(system: &L, start: u32, end: u32) -> u32
    requires some { start < end }
    requires key { (key : List ℕ) × AreOfKey (L.rows system.now) start end key }
    ensures { IsFirstPlace (L.rows system.now) (rows_between (L.rows system.now) start end) result }
{
    let mut place = start;
    let mut first = system.row_at(start);
    for i in 1..end - start {
        let row = system.row_at(start + i);
        if is_before(&row, &first) {
            place = start + i;
            first = row;
        }
    }
    place
}

/// Whether a row is shown before another of its key.
fn is_before(row: &RowRef<'_>, other: &RowRef<'_>) -> bool
    ensures { result ≡ is_lt (ordering_then (nat_cmp other.now.freq row.now.freq) (slice_cmp nat_cmp row.now.phrase.now other.now.phrase.now)) }
{
    if row.freq != other.freq {
        row.freq > other.freq
    } else {
        row.phrase < other.phrase
    }
}
