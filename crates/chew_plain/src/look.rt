ghost use Rattle.std.specs.Prelude.{◌≡◌, ◌+◌, ◌<◌, ◌≤◌, ◌++◌, OnOk, IfOk, length, map};
ghost use Rattle.std.specs.List.{All};
ghost use Rattle.chew_spec_dictionary.specs.Look.{codes_at, hit_of, hits_of};
ghost use Rattle.chew_spec_dictionary.specs.System.{rows_under};
ghost use Rattle.chew_plain.specs.Look.{interval, hits_at};

use crate::hidden::is_hidden;
use crate::hit::Hit;
use crate::interval::{Interval, intervals};
use crate::order::sort_hits;
use crate::pairs::Pairs;
use chew_syllable::{Key, KeyRow, NoMemory, Syllable};
use std::alloc::Global;

/// All rows of all intervals of a run.
pub(crate) fn look(pairs: &Pairs, run: &[Syllable]) -> Result<Vec<Hit>, NoMemory>
    requires short { length run.now ≤ 39 }
    ensures { IfOk result (λ hits. hits.items ≡ hits_of pairs.now run.now) }
{
    let list = intervals(pairs.allocator(), run.len())?;
    let mut hits = Vec::new(pairs.allocator());
    for at in list.as_slice() {
        push_at(&mut hits, pairs, run, *at)?;
    }
    Ok(hits)
}

/// Adds the hits of an interval.
fn push_at(
    hits: &mut Vec<Hit>,
    pairs: &Pairs,
    run: &[Syllable],
    at: Interval,
) -> Result<(), NoMemory>
    requires short { length run.now ≤ 39 }
    requires inside { at.start + at.len ≤ length run.now }
    requires some { 1 ≤ at.len }
    requires few { at.len ≤ 11 }
    ensures { OnOk result (hits.new.items ≡ hits.old.items ++ hits_at pairs.now run.now at) }
{
    let found = found_at(pairs, run, at);
    let mut shown = as_hits(*hits.allocator(), found, at.start as u8, at.len as u8)?;
    sort_hits(&mut shown)?;
    hits.append(&mut shown)?;
    Ok(())
}

/// The rows of an interval.
fn found_at<'a>(pairs: &'a Pairs, run: &[Syllable], at: Interval) -> &'a [KeyRow]
    requires inside { at.start + at.len ≤ length run.now }
    requires some { 1 ≤ at.len }
    requires few { at.len ≤ 11 }
    ensures { result.now ≡ rows_under pairs.now (codes_at run.now at) }
{
    pairs.under(&Key::of_some(&run[at.start..at.start + at.len]))
}

/// The rows as hits of an interval, in the same order.
fn as_hits(alloc: Global, rows: &[KeyRow], start: u8, len: u8) -> Result<Vec<Hit>, NoMemory>
    requires inside { start + len ≤ 39 }
    requires some { 1 ≤ len }
    requires few { len ≤ 11 }
    requires keys { All (λ row. length row.key ≡ len) rows.now }
    ensures { IfOk result (λ hits. hits.items ≡ map (hit_of (interval start len)) rows.now) }
{
    let mut hits = Vec::with_capacity(alloc, rows.len())?;
    for row in rows {
        hits.push(as_hit(row, start, len))?;
    }
    Ok(hits)
}

/// A row as a hit of an interval.
fn as_hit(row: &KeyRow, start: u8, len: u8) -> Hit
    requires inside { start + len ≤ 39 }
    requires some { 1 ≤ len }
    requires few { len ≤ 11 }
    requires key { length row.now.key ≡ len }
    ensures { result ≡ hit_of (interval start len) row.now }
{
    Hit {
        start,
        len,
        phrase: row.phrase.copy(),
        freq: row.freq,
        hidden: is_hidden(row),
    }
}
