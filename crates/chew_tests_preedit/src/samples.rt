//! Cells, phrases and what a buffer has, for the tests.

ghost use Rattle.std.specs.Prelude.{◌≤◌, IsTrue};
ghost use Rattle.chew_preedit.specs.CellItem.{is_printable_item};

use chew_phrasing::Choice;
use chew_preedit::{CellItem, Preedit};
use chew_syllable::{Phrase, Syllable};
use std::process::Abort;
use std::test::Fail;

/// ㄘㄜˋ and ㄕˋ.
const CE: u16 = 10268;

const SHI: u16 = 8708;

/// The cell of a letter: `c` for ㄘㄜˋ, `s` for ㄕˋ, and any other for itself.
pub(crate) fn cell(letter: u8) -> CellItem
    requires low { 32 ≤ letter }
    requires high { letter ≤ 126 }
    ensures { IsTrue (is_printable_item result) }
{
    let code = match letter {
        b'c' => CE,
        b's' => SHI,
        _ => return CellItem::Symbol(letter),
    };
    match Syllable::from_code(code) {
        Some(syllable) => CellItem::Sound(syllable),
        None => CellItem::Symbol(letter),
    }
}

/// The letter of a cell, the other way round.
pub(crate) fn letter(cell: &CellItem) -> u8 {
    match cell {
        CellItem::Sound(syllable) if syllable.code() == CE => b'c',
        CellItem::Sound(_) => b's',
        CellItem::Symbol(byte) => *byte,
    }
}

/// A phrase as a choice.
pub(crate) fn choice(start: u8, text: &str, freq: u32) -> Result<Choice, Fail> {
    let Ok(phrase) = Phrase::read(text.as_bytes()) else {
        return Err(Fail::new("no phrase"));
    };
    Ok(Choice {
        start,
        phrase,
        freq,
    })
}

/// Types the cells of these letters into the buffer, as long as it takes them.
pub(crate) fn type_in(buffer: &mut Preedit, letters: &[u8]) {
    for letter in letters {
        put(buffer, *letter);
    }
}

/// Types one cell, where the buffer takes it.
pub(crate) fn put(buffer: &mut Preedit, letter: u8) {
    if buffer.is_full() || letter < b' ' || letter > b'~' {
        return;
    }
    buffer.insert(cell(letter));
}

/// Moves the cursor, at most to the end.
pub(crate) fn go(buffer: &mut Preedit, place: u8) {
    if usize::from(place) <= buffer.cells().len() {
        buffer.move_to(place);
    }
}

/// Chooses, where the buffer lets it.
pub(crate) fn choose(buffer: &mut Preedit, choice: Choice) {
    if choice.freq <= 99_999_999 && buffer.can_choose(&choice) {
        buffer.choose(choice);
    }
}

/// ㄘㄜˋㄕˋㄘㄜˋㄕˋ!ㄕˋ with a break in the middle of the first four and 測試 chosen on its two sides.
pub(crate) fn six_cells(place: u8) -> Result<Preedit, Fail> {
    let mut buffer = Preedit::of(10);
    type_in(&mut buffer, b"cscs!s");
    go(&mut buffer, 2);
    if buffer.can_break() {
        buffer.toggle_break();
    }
    choose(&mut buffer, choice(0, "測試", 1)?);
    choose(&mut buffer, choice(2, "測試", 2)?);
    go(&mut buffer, place);
    Ok(buffer)
}

/// What a buffer is to have: the letters of its cells, the cursor, the breaks, and the starts and frequencies of its choices.
#[derive(Drop)]
pub(crate) struct Wanted {
    pub(crate) cells: &'static [u8],
    pub(crate) cursor: u8,
    pub(crate) breaks: &'static [u8],
    pub(crate) choices: &'static [(u8, u32)],
}

/// The buffer has this.
pub(crate) fn has(rt: &impl Abort, buffer: &Preedit, wanted: &Wanted) {
    assert_eq!(rt; buffer.cells().len(), wanted.cells.len());
    for (cell, wanted) in buffer.cells().iter().zip(wanted.cells) {
        assert_eq!(rt; letter(cell), *wanted);
    }
    assert_eq!(rt; buffer.cursor(), wanted.cursor);
    assert_eq!(rt; buffer.breaks(), wanted.breaks);
    assert_eq!(rt; buffer.choices().len(), wanted.choices.len());
    for (choice, wanted) in buffer.choices().iter().zip(wanted.choices) {
        assert_eq!(rt; (choice.start, choice.freq), *wanted);
    }
}
