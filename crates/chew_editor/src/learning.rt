ghost use Rattle.std.specs.Prelude.{◌≡◌, ◌+◌, ◌*◌, ◌++◌, ◌≤◌, ◌∷◌, [], All, IfOk, IsTrue, OnOk, chars, drop, encode_utf8_all, flat_map, length, map, take};
ghost use Rattle.std.specs.List.{list_all};
ghost use Rattle.chew_spec_syllable.specs.Row.{is_pair};
ghost use Rattle.chew_spec_preedit.specs.Cell.{is_sound};
ghost use Rattle.chew_spec_editor.specs.Invariant.{covers, is_editor, is_piece};
ghost use Rattle.chew_spec_editor.specs.Learning.{code_in, key_at, learns};
ghost use Rattle.chew_spec_editor.specs.Press.{leading_cells, learn_shown, text_at};
ghost use Rattle.chew_plain.specs.Call.{call_of};
ghost use Rattle.chew_preedit.specs.CellItem.{cell_of};
ghost use Rattle.chew_editor.specs.Spans.{ArePairs, IsSpan, eleven, learn_of, learns_from, learns_in, part_in, spans_from};
ghost use Rattle.chew_editor.specs.State.{state_of};

use crate::characters::characters;
use crate::learn_calls::{learn_call, learn_of, pair_of};
use crate::state::State;
use crate::stretch::Stretch;
use chew_phrasing::Piece;
use chew_plain::{Call, Lexicon};
use chew_preedit::{CellItem, Preedit};
use chew_syllable::{KEY_LIMIT, Key, NoMemory, Phrase};
use std::alloc::Global;

/// What Enter learns of the shown pieces, from left to right: each piece of two or more syllables by itself, and the
/// longest stretches of single syllables that no break parts, in parts of 11 from the left.
pub(crate) fn learns<L: Lexicon>(
    alloc: Global,
    system: &L,
    preedit: &Preedit,
    pieces: &[Piece],
) -> Result<Vec<Call>, NoMemory>
    requires covered { IsTrue (covers preedit.now.cells pieces.now) }
    requires pieces { IsTrue (list_all is_piece pieces.now) }
    ensures { IfOk result (λ calls. map call_of calls.items ≡ learns (L.rows system.now) preedit.now.cells preedit.now.breaks pieces.now) }
{
    let cells = preedit.cells();
    let shown = characters(alloc, cells, pieces)?;
    let mut calls = Vec::new(alloc);
    match pieces {
        [first, others @ ..] => {
            let breaks = preedit.breaks();
            push_stretches(
                &mut calls,
                system,
                breaks,
                cells,
                &shown,
                Stretch::of(first),
                others,
            )?;
            Ok(calls)
        }
        [] => Ok(calls),
    }
}

/// Adds the learns of a stretch with the pieces that go on with it, and those of the pieces behind them.
fn push_stretches<L: Lexicon>(
    calls: &mut Vec<Call>,
    system: &L,
    breaks: &[u8],
    cells: &[CellItem],
    shown: &[char],
    first: Stretch,
    pieces: &[Piece],
) -> Result<(), NoMemory>
    requires { All (IsSpan (map cell_of cells.now) shown.now) (spans_from breaks.now first pieces.now) }
    ensures { OnOk result (map call_of calls.new.items
        ≡ map call_of calls.old.items ++ learns_from (L.rows system.now) breaks.now (map cell_of cells.now) shown.now first pieces.now) }
{
    let mut stretch = first;
    for piece in pieces {
        if stretch.goes_on(breaks, piece) {
            stretch = stretch.longer(piece);
        } else {
            push_stretch(calls, system, cells, shown, stretch)?;
            stretch = Stretch::of(piece);
        }
    }
    push_stretch(calls, system, cells, shown, stretch)
}

/// Adds the learns of a stretch.
fn push_stretch<L: Lexicon>(
    calls: &mut Vec<Call>,
    system: &L,
    cells: &[CellItem],
    shown: &[char],
    stretch: Stretch,
) -> Result<(), NoMemory>
    requires { IsSpan (map cell_of cells.now) shown.now stretch }
    ensures { OnOk result (map call_of calls.new.items
        ≡ map call_of calls.old.items ++ learns_in (L.rows system.now) (part_in stretch (map cell_of cells.now)) (part_in stretch shown.now)) }
{
    push_parts(calls, system, stretch.part(cells), stretch.part(shown))
}

/// Adds the learns of cells as they are shown, in parts of 11.
fn push_parts<L: Lexicon>(
    calls: &mut Vec<Call>,
    system: &L,
    cells: &[CellItem],
    shown: &[char],
) -> Result<(), NoMemory>
    requires { ArePairs (map cell_of cells.now) shown.now }
    ensures { OnOk result (map call_of calls.new.items
        ≡ map call_of calls.old.items ++ learns_in (L.rows system.now) (map cell_of cells.now) shown.now) }
{
    let parts = (cells.len() + (KEY_LIMIT - 1)) / KEY_LIMIT;
    for n in 0..parts {
        push_part(calls, system, part(cells, n), part(shown, n))?;
    }
    Ok(())
}

/// Adds the learn of cells as they are shown.
fn push_part<L: Lexicon>(
    calls: &mut Vec<Call>,
    system: &L,
    cells: &[CellItem],
    shown: &[char],
) -> Result<(), NoMemory>
    requires few { length cells.now ≤ 11 }
    requires pair { IsTrue (is_pair (flat_map code_in (map cell_of cells.now)) (encode_utf8_all shown.now)) }
    ensures { OnOk result (map call_of calls.new.items
        ≡ map call_of calls.old.items ++ learn_of (L.rows system.now) (map cell_of cells.now) shown.now ∷ []) }
{
    let alloc = *calls.allocator();
    calls.push(learn_of(alloc, system, cells, shown)?)?;
    Ok(())
}

/// The n-th part of 11, counted from 0; the last one may have fewer.
fn part<T>(items: &[T], n: usize) -> &[T]
    requires { 11 * n ≤ length items.now }
    ensures value { result.now ≡ eleven n items.now }
    ensures few { length result.now ≤ 11 }
{
    let rest = &items[KEY_LIMIT * n..];
    if rest.len() > KEY_LIMIT {
        &rest[..KEY_LIMIT]
    } else {
        rest
    }
}

/// How many cells lead the buffer: a symbol by itself, or the first piece that is shown.
pub(crate) fn leading_cells(state: &State) -> usize
    ensures { result ≡ leading_cells (state_of state.now) }
{
    if !state.typing.preedit.has_sound(0) {
        return 1;
    }
    match state.pieces.first() {
        Some(piece) => piece.phrase.characters(),
        None => 1,
    }
}

/// The learn of so many syllables from a place on, as they are shown.
#[tactic(auto, unfolding(chew_spec_editor::specs::Press::learn_shown))]
pub(crate) fn learn_shown<L: Lexicon>(
    alloc: Global,
    system: &L,
    state: &State,
    place: usize,
    len: usize,
) -> Result<Call, NoMemory>
    requires within { place + len ≤ length state.now.typing.preedit.cells }
    requires sounds { IsTrue (list_all is_sound (take len (drop place state.now.typing.preedit.cells))) }
    requires some { 1 ≤ len }
    requires few { len ≤ 11 }
    requires editor { IsTrue (is_editor (state_of state.now)) }
    ensures { IfOk result (λ call. call_of call ≡ learn_shown (L.rows system.now) (state_of state.now) place len) }
{
    let (key, phrase) = key_and_phrase(alloc, state, place, len)?;
    Ok(learn_call(system, key, phrase))
}

/// So many syllables from a place on, and what is shown of them: a character for each.
#[tactic(auto, unfolding(chew_spec_editor::specs::Press::text_at))]
pub(crate) fn key_and_phrase(
    alloc: Global,
    state: &State,
    place: usize,
    len: usize,
) -> Result<(Key, Phrase), NoMemory>
    requires within { place + len ≤ length state.now.typing.preedit.cells }
    requires sounds { IsTrue (list_all is_sound (take len (drop place state.now.typing.preedit.cells))) }
    requires some { 1 ≤ len }
    requires few { len ≤ 11 }
    requires editor { IsTrue (is_editor (state_of state.now)) }
    ensures key { IfOk result (λ both. both.0 ≡ key_at state.now.typing.preedit.cells place len) }
    ensures phrase { IfOk result (λ both. both.1 ≡ text_at (state_of state.now) place len) }
    ensures long { IfOk result (λ both. length (chars both.1) ≡ length both.0) }
{
    let cells = state.typing.preedit.cells();
    let shown = characters(alloc, cells, &state.pieces)?;
    pair_of(
        alloc,
        some_of(cells, place, len),
        some_of(&shown, place, len),
    )
}

/// So many of a list, from a place on.
fn some_of<T>(items: &[T], place: usize, len: usize) -> &[T]
    requires { place + len ≤ length items.now }
    ensures { result.now ≡ take len (drop place items.now) }
{
    &items[place..place + len]
}
