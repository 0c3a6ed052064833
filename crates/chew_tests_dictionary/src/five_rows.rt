//! A system of five rows, 測, 策, 是, 試 and 測試, and what its map asks of rows.

ghost use Rattle.std.specs.Prelude.{◌≡◌, ◌≤◌};
ghost use Rattle.std.specs.List.{list_any};
ghost use Rattle.chew_spec_syllable.specs.Row.{is_pair_of, no_pair_twice};

use chew_syllable::{Key, KeyRow, NoMemory, Phrase, Syllable};
use std::alloc::Global;

/// ㄘㄜˋ
pub(crate) const CE: u16 = 10268;

/// ㄕˋ
pub(crate) const SHI: u16 = 8708;

/// The syllable of a code.
pub(crate) fn syllable(code: u16) -> Syllable {
    Syllable::from_code(code).unwrap_or_default()
}

/// A row, where the syllables and the text make one.
pub(crate) fn row(key: &[Syllable], text: &str, freq: u32) -> Option<KeyRow>
    requires { freq ≤ 99_999_999 }
{
    let key = Key::of(key)?;
    let Ok(phrase) = Phrase::read(text.as_bytes()) else {
        return None;
    };
    if phrase.characters() != key.list().len() {
        return None;
    }
    Some(KeyRow {
        key,
        phrase,
        freq,
        time: 0,
    })
}

/// The rows, in no order.
pub(crate) fn five(alloc: Global) -> Result<Vec<KeyRow>, NoMemory> {
    let ce = syllable(CE);
    let shi = syllable(SHI);
    let mut rows = Vec::new(alloc);
    for row in [
        row(&[ce, shi], "測試", 9318),
        row(&[shi], "試", 300),
        row(&[ce], "策", 200),
        row(&[shi], "是", 9000),
        row(&[ce], "測", 100),
    ] {
        if let Some(row) = row {
            rows.push(row)?;
        }
    }
    Ok(rows)
}

/// Whether a row is of this pair.
fn is_of(row: &KeyRow, other: &KeyRow) -> bool
    ensures { result ≡ is_pair_of row.now.key row.now.phrase other.now }
{
    other.key.list() == row.key.list() && other.phrase.text() == row.phrase.text()
}

/// Whether one of the others is of the row's pair.
fn has_pair(others: &[KeyRow], row: &KeyRow) -> bool
    ensures { result ≡ list_any (is_pair_of row.now.key row.now.phrase) others.now }
{
    others.iter().any(|other| is_of(row, other))
}

/// Whether no two rows are of one pair.
pub(crate) fn are_apart(rows: &[KeyRow]) -> bool
    ensures { result ≡ no_pair_twice rows.now }
{
    match rows {
        [] => true,
        [row, rest @ ..] => !has_pair(rest, row) && are_apart(rest),
    }
}
