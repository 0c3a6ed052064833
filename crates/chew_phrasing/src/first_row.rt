ghost use Rattle.std.specs.Prelude.{◌≡◌, ℕ, ◌+◌, ◌-◌, ◌<◌, ◌≤◌, ◌++◌, All, IfOk, IsTrue, List, OnOk, length, map, filter, chars, Option};
ghost use Rattle.std.specs.List.{list_all};
ghost use Rattle.std.specs.Ordering.{is_lt};
ghost use Rattle.chew_spec_syllable.specs.Phrase.{is_phrase};
ghost use Rattle.chew_spec_dictionary.specs.Call as dictionary;
ghost use Rattle.chew_spec_dictionary.specs.Look.{shown_hit_cmp};
ghost use Rattle.chew_spec_dictionary.specs.System.{rows_of};
ghost use Rattle.chew_spec_phrasing.specs.CombinedRows.{as_shown, is_free_of, is_shown, shown_hit};
ghost use Rattle.chew_phrasing.specs.FirstPlace.{AreOfKey, IsKnown, rows_between};
ghost use Rattle.chew_phrasing.specs.Least.{IsLeast, comes_before, found_one, free_one, keeps};

use crate::combined::{as_hit, as_shown, is_shown, is_taken};
use crate::first_place::{FirstPlace, first_place};
use crate::piece::Choice;
use crate::rules::keeps_choices;
use chew_plain::{Hit, Interval, Lexicon};
use chew_syllable::{NoMemory, Syllable};

/// A key has many rows from so many on. It pays then to keep the place of the one that is shown first.
const MANY_ROWS: u32 = 256;

/// The first combined row of an interval that keeps the choices: of the hits that were found for it those that are
/// shown, and of the system's rows of its key those whose phrase no hit has. No list of them all is made. Where the key
/// has many rows, the one that is shown first mostly settles it, and its place is kept among `firsts`.
pub(crate) fn first_row<L: Lexicon>(
    system: &L,
    key: &[Syllable],
    found: &[Hit],
    choices: &[Choice],
    at: Interval,
    firsts: &mut Vec<FirstPlace>,
) -> Result<Option<Hit>, NoMemory>
    requires long { length key.now ≡ at.len }
    requires some { 1 ≤ at.len }
    requires few { at.len ≤ 11 }
    requires firsts { All (IsKnown (L.rows system.now)) firsts.old.items }
    ensures firsts { OnOk result (All (IsKnown (L.rows system.now)) firsts.new.items) }
    ensures first { IfOk result
        (λ first. IsLeast (keeps choices.now at)
        (map as_shown (filter is_shown found.now) ++ map (shown_hit at) (filter (is_free_of found.now) (rows_of (L.rows system.now) key.now))) first) }
{
    let first = first_found(found, choices, at);
    let places = system.places(key);
    let (start, end) = (places.start, places.end);
    if end - start < MANY_ROWS {
        return Ok(walk(system, start, end, first, found, choices, at));
    }
    let row = system.row_at(first_place(system, start, end, firsts)?);
    if !comes_before(row.phrase, row.freq, &first) {
        return Ok(first);
    }
    if !keeps_choices(choices, at, row.phrase) {
        return Ok(walk(system, start, end, first, found, choices, at));
    }
    if is_taken(row.phrase, found) {
        return Ok(walk(system, start, end, first, found, choices, at));
    }
    Ok(Some(as_hit(row.phrase, row.freq, at)))
}

/// The first of one so far and of the system's rows from a place up to another, which are those of a key.
fn walk<L: Lexicon>(
    system: &L,
    start: u32,
    end: u32,
    first: Option<Hit>,
    found: &[Hit],
    choices: &[Choice],
    at: Interval,
) -> Option<Hit>
    requires order { start ≤ end }
    requires key { (key : List ℕ) × AreOfKey (L.rows system.now) start end key × (length key ≡ at.len) }
    requires some { 1 ≤ at.len }
    requires few { at.len ≤ 11 }
    ensures { (before : List dictionary.Hit) → IsLeast (keeps choices.now at) before first
        → IsLeast (keeps choices.now at) (before ++ map (shown_hit at) (filter (is_free_of found.now) (rows_between (L.rows system.now) start end))) result }
{
    let mut best = first;
    for i in 0..end - start {
        let row = system.row_at(start + i);
        offer_row(&mut best, row.phrase, row.freq, found, choices, at);
    }
    best
}

/// The first of the hits that are shown and keep the choices.
fn first_found(found: &[Hit], choices: &[Choice], at: Interval) -> Option<Hit>
    ensures { IsLeast (keeps choices.now at) (map as_shown (filter is_shown found.now)) result }
{
    let mut first = None;
    for hit in found {
        offer_hit(&mut first, hit, choices, at);
    }
    first
}

/// Takes a hit for the first, where it is shown, comes before the first so far and keeps the choices.
fn offer_hit(first: &mut Option<Hit>, hit: &Hit, choices: &[Choice], at: Interval)
    ensures { (before : List dictionary.Hit) → IsLeast (keeps choices.now at) before first.old
        → IsLeast (keeps choices.now at) (before ++ found_one hit.now) first.new }
{
    if !is_shown(hit) {
        return;
    }
    if !comes_before(hit.phrase.text(), hit.freq, first) {
        return;
    }
    if !keeps_choices(choices, at, hit.phrase.text()) {
        return;
    }
    *first = Some(as_shown(hit));
}

/// Takes a row of the system for the first, where it comes before the first so far, keeps the choices, and no hit has
/// its phrase.
fn offer_row(
    first: &mut Option<Hit>,
    phrase: &str,
    freq: u32,
    found: &[Hit],
    choices: &[Choice],
    at: Interval,
)
    requires phrase { IsTrue (is_phrase phrase.now) }
    requires long { length (chars phrase.now) ≡ at.len }
    requires some { 1 ≤ at.len }
    requires few { at.len ≤ 11 }
    requires freq { freq ≤ 99_999_999 }
    ensures { (before : List dictionary.Hit) → IsLeast (keeps choices.now at) before first.old
        → IsLeast (keeps choices.now at) (before ++ free_one found.now at phrase.now freq) first.new }
{
    if !comes_before(phrase, freq, first) {
        return;
    }
    if !keeps_choices(choices, at, phrase) {
        return;
    }
    if is_taken(phrase, found) {
        return;
    }
    *first = Some(as_hit(phrase, freq, at));
}

/// Whether a row of this phrase and frequency is shown before the first so far, where there is one.
fn comes_before(phrase: &str, freq: u32, first: &Option<Hit>) -> bool
    ensures { result ≡ comes_before phrase.now freq first.now }
{
    match first {
        None => true,
        Some(hit) => {
            if freq != hit.freq {
                freq > hit.freq
            } else {
                phrase < hit.phrase.text()
            }
        }
    }
}
