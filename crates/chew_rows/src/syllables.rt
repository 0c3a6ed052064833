ghost use Rattle.std.specs.Prelude.{◌≡◌, ◌≤◌, Ok, Err, IfOk, IfErr, MatchOption};
ghost use Rattle.std.specs.Option.{is_some};
ghost use Rattle.chew_spec_text.specs.DictionaryText as spec;
ghost use Rattle.chew_rows.specs.Fields.{codes_of_text, key_for};
ghost use Rattle.chew_rows.specs.Faults.{cause_of};

use crate::cause::RowCause;
use crate::fields::first_field;
use arrayvec::ArrayVec;
use chew_syllable::{KEY_LIMIT, Key, Syllable, read_bopomofo};

/// The key of the syllables that the fields of a text are, for a phrase of so many characters.
pub(crate) fn read_key(text: &[u8], characters: usize) -> Result<Key, RowCause>
    requires some { 1 ≤ characters }
    requires few { characters ≤ 11 }
    ensures ok { IfOk result (λ key. key_for characters (codes_of_text text.now) ≡ Ok key) }
    ensures err { IfErr result (λ cause. key_for characters (codes_of_text text.now) ≡ Err (cause_of cause)) }
{
    let mut syllables: ArrayVec<Syllable, KEY_LIMIT> = ArrayVec::new();
    let mut rest = text;
    'reading: while let Some((field, behind)) = first_field(rest) {
        match read_bopomofo(field) {
            Ok(syllable) => match syllables.try_push(syllable) {
                Ok(()) => rest = behind,
                Err(_) => return Err(cause_beyond(behind)),
            },
            Err(_) => return Err(RowCause::Syllable),
        }
    }
    if syllables.len() != characters {
        return Err(RowCause::Lengths);
    }
    Ok(Key::of_some(syllables.as_slice()))
}

/// The cause where there are too many syllables before these fields.
fn cause_beyond(text: &[u8]) -> RowCause
    ensures { MatchOption (codes_of_text text.now) (cause_of result ≡ spec.Syllable) (λ _. cause_of result ≡ spec.Lengths) }
{
    if are_syllables(text) {
        RowCause::Lengths
    } else {
        RowCause::Syllable
    }
}

/// Whether each field of a text is a syllable.
fn are_syllables(text: &[u8]) -> bool
    ensures { result ≡ is_some (codes_of_text text.now) }
{
    let mut rest = text;
    'reading: while let Some((field, behind)) = first_field(rest) {
        match read_bopomofo(field) {
            Ok(_) => rest = behind,
            Err(_) => return false,
        }
    }
    true
}
