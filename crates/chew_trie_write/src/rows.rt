ghost use Rattle.std.specs.Prelude.{◌≡◌, ℕ, ◌+◌, ◌*◌, ◌<◌, ◌≤◌, ◌^◌, ◌++◌, OnOk, IsTrue, length, flat_map, nat_lt};
ghost use Rattle.std.specs.List.{list_all};
ghost use Rattle.chew_spec_syllable.specs.Row.{is_row};
ghost use Rattle.chew_spec_image.specs.Fields.{row_bytes};
ghost use Rattle.chew_spec_image.specs.Image.{fields_from, has_time, text_of};

use chew_syllable::{KeyRow, NoMemory, Phrase};
use chew_trie_image::RowFields;

/// What every row keeps holds of each of these. It does nothing, and is there for proofs alone.
pub(crate) fn all_are_rows(rows: &[KeyRow])
    ensures { IsTrue (list_all is_row rows.now) }
{
    for row in rows {
        let _freq = row.freq;
    }
}

/// A time has 64 bits. It does nothing, and is there for proofs alone.
fn has_time(time: u64)
    ensures { IsTrue (nat_lt time (2 ^ 64)) }
{}

/// The times of these rows have 64 bits. It does nothing, and is there for proofs alone.
pub(crate) fn all_have_times(rows: &[KeyRow])
    ensures { IsTrue (list_all has_time rows.now) }
{
    for row in rows {
        has_time(row.time);
    }
}

/// How many bytes a phrase has.
fn phrase_len(phrase: &Phrase) -> u32
    ensures value { result ≡ length phrase.now }
    ensures short { result ≤ 44 }
{
    phrase.text().len() as u32
}

/// How many bytes all phrases have.
pub(crate) fn text_len(rows: &[KeyRow]) -> u32
    requires { length rows.now ≤ 250_000 }
    ensures { result ≡ length (text_of rows.now) }
{
    let mut len = 0;
    for row in rows {
        len += phrase_len(&row.phrase);
    }
    len
}

/// Writes the rows, besides their phrases.
pub(crate) fn push_rows(out: &mut Vec<u8>, rows: &[KeyRow]) -> Result<(), NoMemory>
    requires { length rows.now ≤ 250_000 }
    ensures { OnOk result (out.new.items ≡ out.old.items ++ flat_map row_bytes (fields_from 0 rows.now)) }
{
    let mut text_start = 0;
    for row in rows {
        let text_len = phrase_len(&row.phrase);
        let fields = RowFields {
            freq: row.freq,
            text_start,
            text_len,
            time: row.time,
        };
        out.extend_from_slice(&fields.bytes())?;
        text_start += text_len;
    }
    Ok(())
}

/// Writes the phrases.
pub(crate) fn push_text(out: &mut Vec<u8>, rows: &[KeyRow]) -> Result<(), NoMemory>
    ensures { OnOk result (out.new.items ≡ out.old.items ++ text_of rows.now) }
{
    for row in rows {
        out.extend_from_slice(row.phrase.text().as_bytes())?;
    }
    Ok(())
}
