ghost use Rattle.std.specs.Prelude.{◌≡◌, ◌++◌, IfOk, OnOk, flat_map};
ghost use Rattle.chew_spec_text.specs.Line.{with_line_feed};
ghost use Rattle.chew_spec_text.specs.RowText.{row_text, rows_text, spaced};

use chew_syllable::{KeyRow, NoMemory, Syllable, print_bopomofo};
use chew_text::append_decimal;
use std::alloc::Global;

/// The text of rows, a line each, which tells all but their times. Where no pair stands twice and they are at most
/// 250,000, it is read as these rows with time 0. Only want of memory is told, as `NoMemory`.
pub fn print_rows(alloc: Global, rows: &[KeyRow]) -> Result<Vec<u8>, NoMemory>
    ensures { IfOk result (λ text. text.items ≡ rows_text rows.now) }
{
    let mut text = Vec::new(alloc);
    for row in rows {
        push_row(&mut text, row)?;
    }
    Ok(text)
}

/// Appends the line of a row.
fn push_row(text: &mut Vec<u8>, row: &KeyRow) -> Result<(), NoMemory>
    ensures { OnOk result (text.new.items ≡ text.old.items ++ with_line_feed (row_text row.now)) }
{
    text.extend_from_slice(row.phrase.text().as_bytes())?;
    text.push(b' ')?;
    append_decimal(text, u64::from(row.freq))?;
    push_syllables(text, row.key.list())?;
    text.push(b'\n')?;
    Ok(())
}

/// Appends the texts of syllables, each behind a space.
fn push_syllables(text: &mut Vec<u8>, syllables: &[Syllable]) -> Result<(), NoMemory>
    ensures { OnOk result (text.new.items ≡ text.old.items ++ flat_map spaced syllables.now) }
{
    for syllable in syllables {
        push_syllable(text, *syllable)?;
    }
    Ok(())
}

/// Appends a space and the text of a syllable.
fn push_syllable(text: &mut Vec<u8>, syllable: Syllable) -> Result<(), NoMemory>
    ensures { OnOk result (text.new.items ≡ text.old.items ++ spaced syllable) }
{
    text.push(b' ')?;
    text.extend_from_slice(print_bopomofo(syllable).as_bytes())?;
    Ok(())
}
