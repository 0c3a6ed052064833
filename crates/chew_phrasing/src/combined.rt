ghost use Rattle.std.specs.Prelude.{◌≡◌, ◌+◌, ◌<◌, ◌≤◌, ◌++◌, false, IsTrue, IfOk, OnOk, filter, length, map, chars};
ghost use Rattle.std.specs.List.{list_any};
ghost use Rattle.std.specs.Str.{bytes_eq};
ghost use Rattle.chew_spec_syllable.specs.Phrase.{is_phrase};
ghost use Rattle.chew_spec_dictionary.specs.System.{rows_of};
ghost use Rattle.chew_spec_phrasing.specs.CombinedRows.{as_shown, combined_hits, is_free_of, is_hit_at, is_shown, shown_hit};
ghost use Rattle.chew_phrasing.specs.Combine.{combined_at, combined_from};

use crate::interval::is_hit_at;
use chew_plain::{Hit, Hits, Interval, Lexicon, sort_hits};
use chew_syllable::{KEY_LIMIT, NoMemory, Phrase, Run, Syllable};
use std::alloc::Global;
use std::cmp::min;

/// The combined rows of every interval of the run, by their starts, then their lengths, as they are shown: the
/// user's rows that aren't hidden, and those of the system whose phrase no row of the user has. `user` is what a look
/// for this run found.
pub fn combine<L: Lexicon>(
    alloc: Global,
    system: &L,
    run: &Run,
    user: &[Hit],
) -> Result<Hits, NoMemory>
    ensures { IfOk result (λ hits. hits ≡ combined_hits (L.rows system.now) run.now user.now) }
{
    let syllables = run.list();
    let mut hits = Vec::new(alloc);
    for start in 0..syllables.len() {
        push_from(&mut hits, system, syllables, user, start)?;
    }
    Ok(Hits::of(hits))
}

/// The combined rows of the intervals that begin at one place of the run, by their lengths, as they are shown.
pub fn combine_at<L: Lexicon>(
    alloc: Global,
    system: &L,
    run: &Run,
    user: &[Hit],
    place: u8,
) -> Result<Hits, NoMemory>
    requires inside { place < length run.now }
    ensures { IfOk result (λ hits. hits ≡ combined_from (L.rows system.now) run.now user.now place) }
{
    let mut hits = Vec::new(alloc);
    push_from(&mut hits, system, run.list(), user, usize::from(place))?;
    Ok(Hits::of(hits))
}

/// Adds the combined rows of the intervals that begin at a place.
fn push_from<L: Lexicon>(
    hits: &mut Vec<Hit>,
    system: &L,
    run: &[Syllable],
    user: &[Hit],
    start: usize,
) -> Result<(), NoMemory>
    requires short { length run.now ≤ 39 }
    requires inside { start < length run.now }
    ensures { OnOk result (hits.new.items ≡ hits.old.items ++ combined_from (L.rows system.now) run.now user.now start) }
{
    let limit = min(KEY_LIMIT, run.len() - start);
    for len in 1..limit + 1 {
        push_at(hits, system, run, user, Interval { start, len })?;
    }
    Ok(())
}

/// Adds the combined rows of an interval.
fn push_at<L: Lexicon>(
    hits: &mut Vec<Hit>,
    system: &L,
    run: &[Syllable],
    user: &[Hit],
    at: Interval,
) -> Result<(), NoMemory>
    requires inside { at.start + at.len ≤ length run.now }
    requires some { 1 ≤ at.len }
    requires few { at.len ≤ 11 }
    ensures { OnOk result (hits.new.items ≡ hits.old.items ++ combined_at (L.rows system.now) run.now user.now at) }
{
    let alloc = *hits.allocator();
    let found = hits_at(alloc, user, at)?;
    let mut shown = shown_hits(alloc, &found)?;
    let mut free = free_hits(alloc, system, &run[at.start..at.start + at.len], &found, at)?;
    shown.append(&mut free)?;
    sort_hits(&mut shown)?;
    hits.append(&mut shown)?;
    Ok(())
}

/// The hits of an interval.
pub(crate) fn hits_at(alloc: Global, user: &[Hit], at: Interval) -> Result<Vec<Hit>, NoMemory>
    ensures { IfOk result (λ found. found.items ≡ filter (is_hit_at at) user.now) }
{
    let mut found = Vec::new(alloc);
    for hit in user {
        if is_hit_at(hit, at) {
            found.push(hit.copy())?;
        }
    }
    Ok(found)
}

/// Of these hits those that are shown.
fn shown_hits(alloc: Global, hits: &[Hit]) -> Result<Vec<Hit>, NoMemory>
    ensures { IfOk result (λ shown. shown.items ≡ map as_shown (filter is_shown hits.now)) }
{
    let mut shown = Vec::with_capacity(alloc, hits.len())?;
    for hit in hits {
        if is_shown(hit) {
            shown.push(as_shown(hit))?;
        }
    }
    Ok(shown)
}

/// Whether the hit is shown: it isn't hidden, or of a single syllable.
pub(crate) fn is_shown(hit: &Hit) -> bool
    ensures { result ≡ is_shown hit.now }
{
    if !hit.hidden {
        return true;
    }
    hit.len < 2
}

/// The hit as it is shown.
pub(crate) fn as_shown(hit: &Hit) -> Hit
    ensures { result ≡ as_shown hit.now }
{
    Hit {
        start: hit.start,
        len: hit.len,
        phrase: hit.phrase.copy(),
        freq: hit.freq,
        hidden: false,
    }
}

/// The system's rows of an interval whose phrase none of these hits has, as hits.
fn free_hits<L: Lexicon>(
    alloc: Global,
    system: &L,
    key: &[Syllable],
    own: &[Hit],
    at: Interval,
) -> Result<Vec<Hit>, NoMemory>
    requires long { length key.now ≡ at.len }
    requires some { 1 ≤ at.len }
    requires few { at.len ≤ 11 }
    ensures { IfOk result (λ free. free.items ≡ map (shown_hit at) (filter (is_free_of own.now) (rows_of (L.rows system.now) key.now))) }
{
    let places = system.places(key);
    let (start, end) = (places.start, places.end);
    let mut free = Vec::new(alloc);
    for i in 0..end - start {
        let row = system.row_at(start + i);
        if !is_taken(row.phrase, own) {
            free.push(as_hit(row.phrase, row.freq, at))?;
        }
    }
    Ok(free)
}

/// Whether some of these hits has the phrase.
pub(crate) fn is_taken(phrase: &str, own: &[Hit]) -> bool
    ensures { result ≡ list_any (λ hit. bytes_eq hit.phrase phrase.now) own.now }
{
    own.iter().any(|hit| has_phrase(hit, phrase))
}

/// Whether the hit has the phrase.
fn has_phrase(hit: &Hit, phrase: &str) -> bool
    ensures { result ≡ bytes_eq hit.now.phrase phrase.now }
{
    hit.phrase.text() == phrase
}

/// A row's phrase and frequency as a hit of an interval.
pub(crate) fn as_hit(phrase: &str, freq: u32, at: Interval) -> Hit
    requires phrase { IsTrue (is_phrase phrase.now) }
    requires long { length (chars phrase.now) ≡ at.len }
    requires some { 1 ≤ at.len }
    requires few { at.len ≤ 11 }
    requires freq { freq ≤ 99_999_999 }
    ensures { result ≡ record { start = at.start; len = at.len; phrase = phrase.now; freq = freq; hidden = false } }
{
    Hit {
        start: at.start as u8,
        len: at.len as u8,
        phrase: Phrase::of(phrase),
        freq,
        hidden: false,
    }
}
