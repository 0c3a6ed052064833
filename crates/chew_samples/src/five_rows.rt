//! A system of five rows, 測, 策, 是, 試 and 測試, and what rows of other systems are made by.

ghost use Rattle.std.specs.Prelude.{◌≡◌, ◌≤◌, IfOk, IfSome, IsSome, IsTrue, length, true};
ghost use Rattle.chew_spec_syllable.specs.Row.{is_pair, no_pair_twice};
ghost use Rattle.chew_spec_syllable.specs.Syllable.{is_code};
ghost use Rattle.chew_spec_dictionary.specs.FiveRows.{five_rows, row_at_start};

use chew_syllable::{Key, KeyRow, NoMemory, Phrase, Syllable};
use std::alloc::Global;

/// ㄘㄜˋ
pub const CE: u16 = 10268;

/// ㄕˋ
pub const SHI: u16 = 8708;

/// The text of the five rows, in 90 bytes.
pub const FIVE_ROWS: &str = "測 100 ㄘㄜˋ\n策 200 ㄘㄜˋ\n是 9000 ㄕˋ\n試 300 ㄕˋ\n測試 9318 ㄘㄜˋ ㄕˋ\n";

/// The syllable of a code.
pub fn syllable(code: u16) -> Syllable
    requires { IsTrue (is_code code) }
    ensures { result ≡ code }
{
    Syllable::from_code(code).unwrap_or_default()
}

/// A row of a system, where the text is a phrase of so many syllables.
pub fn row(key: &[Syllable], text: &str, freq: u32) -> Option<KeyRow>
    requires { freq ≤ 99_999_999 }
    ensures some { is_pair key.now text.now ≡ true → IsSome result }
    ensures value { IfSome result (λ row. row ≡ row_at_start key.now text.now freq) }
{
    let key = Key::of(key)?;
    let Ok(phrase) = Phrase::read(text.as_bytes()) else {
        return None;
    };
    if phrase.characters() != key.list().len() {
        return None;
    }
    Some(KeyRow {
        key,
        phrase,
        freq,
        time: 0,
    })
}

/// A row of a system, of a text that is a phrase of so many syllables.
fn given(key: &[Syllable], text: &str, freq: u32) -> KeyRow
    requires freq { freq ≤ 99_999_999 }
    requires pair { is_pair key.now text.now ≡ true }
    ensures { result ≡ row_at_start key.now text.now freq }
{
    match row(key, text, freq) {
        Some(row) => row,
        None => unreachable!(),
    }
}

/// The rows, in the order of their text, which is not that of an image.
pub fn five(alloc: Global) -> Result<Vec<KeyRow>, NoMemory>
    ensures rows { IfOk result (λ rows. rows.items ≡ five_rows) }
    ensures apart { IfOk result (λ rows. IsTrue (no_pair_twice rows.items)) }
    ensures five { IfOk result (λ rows. length rows.items ≡ 5) }
{
    let ce = syllable(CE);
    let shi = syllable(SHI);
    Ok(vec![in alloc;
        given(&[ce], "測", 100),
        given(&[ce], "策", 200),
        given(&[shi], "是", 9000),
        given(&[shi], "試", 300),
        given(&[ce, shi], "測試", 9318),
    ]?)
}
