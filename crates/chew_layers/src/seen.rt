ghost use Rattle.std.specs.Prelude.{◌≡◌, ◌+◌, ◌≤◌, ◌++◌, ◌∷◌, [], ℕ, List, IsTrue, IfOk, OnOk, is_some, length, map};
ghost use Rattle.chew_spec_syllable.specs.Row.{is_pair};
ghost use Rattle.chew_spec_dictionary.specs.HiddenPairs.{is_hidden};
ghost use Rattle.chew_spec_dictionary.specs.Look.{hit_of};
ghost use Rattle.chew_spec_layers.specs.Mark.{is_proper_mark, mark_of};
ghost use Rattle.chew_spec_layers.specs.Overlay.{live_rows, unmarked_rows};
ghost use Rattle.chew_buffer.specs.Marks.{marked_of, marks_under};
ghost use Rattle.chew_plain.specs.Look.{interval};
ghost use Rattle.chew_layers.specs.Visible.{base_rows, marked_rows, visible_rows};

use crate::held::Held;
use chew_buffer::{Buffer, Mark, MarkRef};
use chew_plain::{HIDDEN_TIME, Hit, Lexicon, RowRef, can_hide};
use chew_syllable::{Key, NoMemory, Phrase};
use chew_trie_read::Trie;
use std::alloc::Global;

/// Whether a pair of the key that has this time is hidden.
pub(crate) fn is_hidden(key: &Key, time: u64) -> bool
    ensures { (phrase : List ℕ) (freq : ℕ) → result ≡ is_hidden (record { key = key.now; phrase = phrase; freq = freq; time = time }) }
{
    can_hide(key.list()) && time == HIDDEN_TIME
}

/// The rows of a key that no newer layer hides, as hits of the interval that begins at `start`, in no order.
pub(crate) fn visible_hits(
    held: Held<'_>,
    alloc: Global,
    key: &Key,
    start: u8,
) -> Result<Vec<Hit>, NoMemory>
    requires inside { start + length key.now ≤ 39 }
    ensures { IfOk result (λ hits. hits.items
        ≡ map (hit_of (interval start (length key.now))) (visible_rows held.entry.base.now held.entry.frozen.now held.entry.fresh.now key.now)) }
{
    let mut hits = Vec::new(alloc);
    push_base(&mut hits, held, key, start)?;
    push_frozen(&mut hits, held.frozen, held.fresh, key, start)?;
    push_fresh(&mut hits, held.fresh, key, start)?;
    Ok(hits)
}

/// Adds the rows of the base.
fn push_base(hits: &mut Vec<Hit>, held: Held<'_>, key: &Key, start: u8) -> Result<(), NoMemory>
    requires inside { start + length key.now ≤ 39 }
    ensures { OnOk result (hits.new.items
        ≡ hits.old.items ++ map (hit_of (interval start (length key.now))) (base_rows held.entry.base.now held.entry.frozen.now held.entry.fresh.now key.now)) }
{
    let base = held.base;
    let _total = base.total();
    let places = base.places(key.list());
    for place in places.start..places.end {
        push_row(hits, held, key, base.row_at(place), start)?;
    }
    Ok(())
}

/// Adds a row of the base, unless a layer has a mark for its pair.
fn push_row(
    hits: &mut Vec<Hit>,
    held: Held<'_>,
    key: &Key,
    row: RowRef<'_>,
    start: u8,
) -> Result<(), NoMemory>
    requires inside { start + length key.now ≤ 39 }
    requires pair { IsTrue (is_pair key.now row.phrase.now) }
    requires range { row.freq ≤ 99_999_999 }
    ensures { OnOk result (hits.new.items
        ≡ hits.old.items ++ map (hit_of (interval start (length key.now)))
        (unmarked_rows (unmarked_rows
        (record { key = key.now; phrase = row.entry.phrase.now; freq = row.entry.freq; time = row.entry.time } ∷ [])
        held.entry.frozen.now) held.entry.fresh.now)) }
{
    let phrase = Phrase::of(row.phrase);
    if is_marked(held.frozen, key, &phrase) {
        return Ok(());
    }
    if is_marked(held.fresh, key, &phrase) {
        return Ok(());
    }
    hits.push(hit_with(key, phrase, start, row.freq, row.time))?;
    Ok(())
}

/// Adds the rows of the frozen marks.
fn push_frozen(
    hits: &mut Vec<Hit>,
    frozen: &Buffer,
    fresh: &Buffer,
    key: &Key,
    start: u8,
) -> Result<(), NoMemory>
    requires inside { start + length key.now ≤ 39 }
    ensures { OnOk result (hits.new.items ≡ hits.old.items ++ map (hit_of (interval start (length key.now))) (marked_rows frozen.now fresh.now key.now)) }
{
    for marked in frozen.marks_of(key.list()) {
        push_marked(hits, fresh, key, marked, start)?;
    }
    Ok(())
}

/// Adds the row of a mark, unless a newer layer has one for its pair.
fn push_marked(
    hits: &mut Vec<Hit>,
    newer: &Buffer,
    key: &Key,
    marked: MarkRef<'_>,
    start: u8,
) -> Result<(), NoMemory>
    requires inside { start + length key.now ≤ 39 }
    requires key { marked.key.now ≡ key.now }
    requires proper { IsTrue (is_proper_mark (marked_of marked.key.now marked.phrase.now marked.mark)) }
    ensures { OnOk result (hits.new.items
        ≡ hits.old.items ++ map (hit_of (interval start (length key.now)))
        (unmarked_rows (live_rows (marked_of marked.entry.key.now marked.entry.phrase.now marked.entry.mark ∷ [])) newer.now)) }
{
    if is_marked(newer, key, marked.phrase) {
        return Ok(());
    }
    push_live(hits, key, marked, start)
}

/// Adds the rows of the fresh marks.
fn push_fresh(hits: &mut Vec<Hit>, fresh: &Buffer, key: &Key, start: u8) -> Result<(), NoMemory>
    requires inside { start + length key.now ≤ 39 }
    ensures { OnOk result (hits.new.items ≡ hits.old.items ++ map (hit_of (interval start (length key.now))) (live_rows (marks_under fresh.now key.now))) }
{
    for marked in fresh.marks_of(key.list()) {
        push_live(hits, key, marked, start)?;
    }
    Ok(())
}

/// Adds the row of a mark, where it is a live one.
fn push_live(hits: &mut Vec<Hit>, key: &Key, marked: MarkRef<'_>, start: u8) -> Result<(), NoMemory>
    requires inside { start + length key.now ≤ 39 }
    requires key { marked.key.now ≡ key.now }
    requires proper { IsTrue (is_proper_mark (marked_of marked.key.now marked.phrase.now marked.mark)) }
    ensures { OnOk result (hits.new.items ≡ hits.old.items
        ++ map (hit_of (interval start (length key.now))) (live_rows (marked_of marked.entry.key.now marked.entry.phrase.now marked.entry.mark ∷ []))) }
{
    match marked.mark {
        Mark::Live { freq, time } => {
            hits.push(hit_with(key, marked.phrase.copy(), start, freq, time))?;
            Ok(())
        }
        Mark::Grave => Ok(()),
    }
}

/// Whether a layer has a mark for a pair.
fn is_marked(layer: &Buffer, key: &Key, phrase: &Phrase) -> bool
    ensures { result ≡ is_some (mark_of layer.now key.now phrase.now) }
{
    layer.get(key, phrase).is_some()
}

/// A row as a hit of the interval that begins at `start`.
fn hit_with(key: &Key, phrase: Phrase, start: u8, freq: u32, time: u64) -> Hit
    requires inside { start + length key.now ≤ 39 }
    requires pair { IsTrue (is_pair key.now phrase) }
    requires range { freq ≤ 99_999_999 }
    ensures { result ≡ hit_of (interval start (length key.now)) (record { key = key.now; phrase = phrase; freq = freq; time = time }) }
{
    Hit {
        start,
        len: key.len() as u8,
        hidden: is_hidden(key, time),
        phrase,
        freq,
    }
}
