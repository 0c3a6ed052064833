ghost use Rattle.std.specs.Prelude.{◌≡◌, ◌≤◌, Ok, IfOk, IfErr, IsTrue, length};
ghost use Rattle.chew_spec_syllable.specs.Row.{no_pair_twice};
ghost use Rattle.chew_spec_text.specs.DictionaryText.{dictionary_rows};
ghost use Rattle.chew_rows.specs.Faults.{IsFaultOf};

use crate::cause::{RowCause, RowsFault};
use crate::limits::SYSTEM_LIMIT;
use crate::line_reader::rows_by_line;
use crate::whole_reader::rows_as_whole;
use chew_syllable::KeyRow;
use std::alloc::Global;

/// The rows of a text in the order of its lines, at most 250,000, each with time 0. A text of more than 64 MiB is
/// refused, and one with a line that gives no row or one row too many: its first such line is told. Want of memory is
/// told apart, as `NoMemory`.
pub fn read_rows(alloc: Global, text: &[u8]) -> Result<Vec<KeyRow>, RowsFault>
    ensures ok { IfOk result (λ rows. dictionary_rows text.now ≡ Ok rows.items) }
    ensures distinct { IfOk result (λ rows. IsTrue (no_pair_twice rows.items)) }
    ensures few { IfOk result (λ rows. length rows.items ≤ 250_000) }
    ensures bad { IfErr result (λ fault. IsFaultOf (dictionary_rows text.now) fault) }
{
    if text.len() > SYSTEM_LIMIT {
        return Err(RowsFault::Bad {
            line: 0,
            cause: RowCause::Size,
        });
    }
    match rows_as_whole(alloc, text) {
        Ok(Some(rows)) => Ok(rows),
        Ok(None) => rows_by_line(alloc, text),
        Err(_) => Err(RowsFault::NoMemory),
    }
}
