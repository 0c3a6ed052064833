ghost use Rattle.std.specs.Prelude.{◌≡◌, Ok, Err, IfOk, IfErr};
ghost use Rattle.chew_spec_text.specs.DictionaryText.{fields_in, row_in};
ghost use Rattle.chew_rows.specs.Faults.{cause_of};

use crate::cause::RowCause;
use crate::fields::first_field;
use crate::frequency::read_freq;
use crate::syllables::read_key;
use chew_syllable::{KeyRow, Phrase};

/// The row of a phrase and the fields behind it: its frequency and its syllables.
pub(crate) fn row_of(phrase: &[u8], rest: &[u8]) -> Result<KeyRow, RowCause>
    ensures ok { IfOk result (λ row. row_in phrase.now (fields_in rest.now) ≡ Ok row) }
    ensures err { IfErr result (λ cause. row_in phrase.now (fields_in rest.now) ≡ Err (cause_of cause)) }
{
    let Ok(phrase) = Phrase::read(phrase) else {
        return Err(RowCause::Phrase);
    };
    let Some((digits, rest)) = first_field(rest) else {
        return Err(RowCause::Frequency);
    };
    let Some(freq) = read_freq(digits) else {
        return Err(RowCause::Frequency);
    };
    let key = read_key(rest, phrase.characters())?;
    Ok(KeyRow {
        key,
        phrase,
        freq,
        time: 0,
    })
}
