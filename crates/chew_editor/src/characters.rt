ghost use Rattle.std.specs.Prelude.{◌≡◌, ◌∷◌, ◌++◌, [], IfNone, IfOk, IfSome, OnOk, chars, find, map, option_to_list, slice_get};
ghost use Rattle.std.specs.Option.{option_copied};
ghost use Rattle.chew_spec_preedit.specs.ShownText.{character_at, characters_from, characters_of, has_cell};
ghost use Rattle.chew_preedit.specs.CellItem.{cell_of};

use chew_phrasing::Piece;
use chew_preedit::CellItem;
use chew_syllable::{NoMemory, split_character};
use std::alloc::Global;

/// The character of each cell, given the pieces of all runs.
pub(crate) fn characters(
    alloc: Global,
    cells: &[CellItem],
    pieces: &[Piece],
) -> Result<Vec<char>, NoMemory>
    ensures { IfOk result (λ characters. characters.items ≡ characters_of pieces.now (map cell_of cells.now)) }
{
    let mut characters = Vec::with_capacity(alloc, cells.len())?;
    for (place, cell) in cells.iter().enumerate() {
        push_character(&mut characters, pieces, cell, place)?;
    }
    Ok(characters)
}

/// Adds the character of the cell at a place.
fn push_character(
    characters: &mut Vec<char>,
    pieces: &[Piece],
    cell: &CellItem,
    place: usize,
) -> Result<(), NoMemory>
    ensures { OnOk result (characters.new.items ≡ characters.old.items ++ characters_from pieces.now place (cell_of cell.now ∷ [])) }
{
    match cell {
        CellItem::Symbol(byte) => push_some(characters, Some(char::from(*byte))),
        CellItem::Sound(_) => push_some(characters, character_at(pieces, place)),
    }
}

/// Adds a character, where there is one.
fn push_some(characters: &mut Vec<char>, character: Option<char>) -> Result<(), NoMemory>
    ensures { OnOk result (characters.new.items ≡ characters.old.items ++ option_to_list character) }
{
    if let Some(character) = character {
        characters.push(character)?;
    }
    Ok(())
}

/// The character that the pieces show for the cell at a place.
fn character_at(pieces: &[Piece], place: usize) -> Option<char>
    ensures { result ≡ character_at pieces.now place }
{
    let piece = piece_with(pieces, place)?;
    character_of(
        piece.phrase.text(),
        place.saturating_sub(usize::from(piece.start)),
    )
}

/// The first piece that has the cell at a place.
fn piece_with(pieces: &[Piece], place: usize) -> Option<&Piece>
    ensures { option_copied result ≡ find (has_cell place) pieces.now }
{
    pieces.iter().find(|piece| has_cell(piece, place))
}

/// Whether the piece has the cell at a place.
fn has_cell(piece: &Piece, place: usize) -> bool
    ensures { result ≡ has_cell place piece.now }
{
    usize::from(piece.start) <= place
        && place < usize::from(piece.start) + piece.phrase.characters()
}

/// A character of a text, counted from 0; `None` where the text has no more.
fn character_of(text: &str, count: usize) -> Option<char>
    ensures { result ≡ slice_get (chars text.now) count }
{
    let (first, rest) = split_character(text)?;
    if count == 0 {
        Some(first)
    } else {
        character_of(rest, count - 1)
    }
}
