ghost use Rattle.std.specs.Prelude.{◌≡◌, ◌+◌, ◌-◌, ◌++◌, ◌<◌, ◌≤◌, ◌&&◌, IfOk, OnOk, filter, length, min, nat_lt};
ghost use Rattle.chew_spec_phrasing.specs.CombinedRows.{combined_hits, is_hit_at};
ghost use Rattle.chew_spec_preedit.specs.PlacedRun.{breaks_in, run_end};
ghost use Rattle.chew_spec_preedit.specs.Window.{candidate_lists, is_whole_at};
ghost use Rattle.chew_spec_editor.specs.Finish.{window_of_lists};
ghost use Rattle.chew_editor.specs.Lists.{list_at, lists_from};

use chew_candidates::{CandList, Window};
use chew_phrasing::combine_at;
use chew_plain::{Hit, Hits, Lexicon};
use chew_preedit::{PlacedRun, Preedit};
use chew_syllable::{KEY_LIMIT, NoMemory};
use std::alloc::Global;
use std::cmp::min;

/// The window at a place of a run, where there is any candidate, given what the run's look-up found.
pub(crate) fn window_at<L: Lexicon>(
    alloc: Global,
    system: &L,
    preedit: &Preedit,
    run: &PlacedRun,
    hits: &[Hit],
    place: u8,
    per_page: u8,
) -> Result<Option<Window>, NoMemory>
    requires from { run.now.start ≤ place }
    requires to { place < run_end run.now }
    requires one { 1 ≤ per_page }
    requires ten { per_page ≤ 10 }
    ensures { IfOk result (λ window. window ≡ window_of_lists per_page place
        (candidate_lists (combined_hits (L.rows system.now) run.now.codes hits.now)
        (breaks_in run.now preedit.now.breaks) (length run.now.codes) (place - run.now.start))) }
{
    let lists = lists_at(alloc, system, preedit, run, hits, place - run.start)?;
    if lists.is_empty() {
        return Ok(None);
    }
    Ok(Some(Window::show(place, lists, per_page)))
}

/// The lists of candidates for a place of a run, the longest first.
fn lists_at<L: Lexicon>(
    alloc: Global,
    system: &L,
    preedit: &Preedit,
    run: &PlacedRun,
    hits: &[Hit],
    place: u8,
) -> Result<Vec<CandList>, NoMemory>
    requires { place < length run.now.codes }
    ensures { IfOk result (λ lists. lists.items
        ≡ candidate_lists (combined_hits (L.rows system.now) run.now.codes hits.now) (breaks_in run.now preedit.now.breaks) (length run.now.codes) place) }
{
    let rows = combine_at(alloc, system, &run.codes, hits, place)?;
    let breaks = preedit.breaks_in(run);
    let longest = min(KEY_LIMIT, run.codes.list().len() - usize::from(place));
    lists_from(alloc, rows.list(), breaks.as_slice(), place, longest as u8)
}

/// The lists of the lengths from one down to 1, given the rows of these lengths.
fn lists_from(
    alloc: Global,
    rows: &[Hit],
    breaks: &[u8],
    place: u8,
    longest: u8,
) -> Result<Vec<CandList>, NoMemory>
    ensures { IfOk result (λ lists. lists.items ≡ lists_from rows.now breaks.now place longest) }
{
    let mut lists = Vec::new(alloc);
    let mut len = longest;
    while len > 0 {
        push_list(&mut lists, rows, breaks, place, len)?;
        len -= 1;
    }
    Ok(lists)
}

/// Adds the list of a length, where no break parts it and there is a candidate.
fn push_list(
    lists: &mut Vec<CandList>,
    rows: &[Hit],
    breaks: &[u8],
    place: u8,
    len: u8,
) -> Result<(), NoMemory>
    ensures { OnOk result (lists.new.items ≡ lists.old.items ++ list_at rows.now breaks.now place len) }
{
    if !is_whole_at(breaks, place, len) {
        return Ok(());
    }
    let found = Hits::of(rows_of(*lists.allocator(), rows, place, len)?);
    if found.list().is_empty() {
        return Ok(());
    }
    lists.push(CandList { len, rows: found })?;
    Ok(())
}

/// The rows of a length from a place on.
fn rows_of(alloc: Global, rows: &[Hit], place: u8, len: u8) -> Result<Vec<Hit>, NoMemory>
    ensures { IfOk result (λ found. found.items ≡ filter (is_hit_at (record { start = place; len = len })) rows.now) }
{
    let mut found = Vec::new(alloc);
    for row in rows {
        if is_row_of(row, place, len) {
            found.push(row.copy())?;
        }
    }
    Ok(found)
}

/// Whether the row has this length and begins at this place.
fn is_row_of(row: &Hit, place: u8, len: u8) -> bool
    ensures { result ≡ is_hit_at (record { start = place; len = len }) row.now }
{
    row.start == place && row.len == len
}

/// Whether no break lies strictly inside so many syllables from a place on.
fn is_whole_at(breaks: &[u8], place: u8, len: u8) -> bool
    ensures { result ≡ is_whole_at breaks.now place len }
{
    breaks.iter().all(|at| !is_inside(*at, place, len))
}

/// Whether a place lies strictly inside so many syllables from a place on.
fn is_inside(at: u8, place: u8, len: u8) -> bool
    ensures { result ≡ (nat_lt place at && nat_lt at (place + len)) }
{
    place < at && usize::from(at) < usize::from(place) + usize::from(len)
}
