ghost use Rattle.std.specs.Prelude.{◌≡◌, ◌≤◌, Ok, IfOk, IfSome, IsTrue, length};
ghost use Rattle.chew_spec_text.specs.DictionaryText.{dictionary_rows};
ghost use Rattle.chew_rows.specs.Lines.{Follows};

use crate::apart::are_apart;
use crate::fields::{before_comment, first_field};
use crate::limits::ROWS_LIMIT;
use crate::row_line::row_of;
use chew_syllable::{KeyRow, NoMemory};
use chew_text::Lines;
use std::alloc::Global;

/// The rows of a text that isn't too long, which are compared with each other once all are read; `None` where a line
/// gives no row, a pair stands twice or the rows are too many, and then no line is told.
pub(crate) fn rows_as_whole(alloc: Global, text: &[u8]) -> Result<Option<Vec<KeyRow>>, NoMemory>
    requires { length text.now ≤ 67_108_864 }
    ensures { IfOk result (λ found. IfSome found (λ rows. dictionary_rows text.now ≡ Ok rows.items)) }
{
    let mut rows = Vec::new(alloc);
    let mut lines = Lines::of(text);
    'lines: while let Some(line) = lines.next_line() {
        if !add_line(&mut rows, line)? {
            return Ok(None);
        }
    }
    if are_apart(alloc, &rows)? {
        Ok(Some(rows))
    } else {
        Ok(None)
    }
}

/// Appends the row of a line, where it has one, and answers whether the line can be taken but for its pair.
fn add_line(rows: &mut Vec<KeyRow>, line: &[u8]) -> Result<bool, NoMemory>
    ensures { IfOk result (λ went. IsTrue went → Follows rows.old.items line.now rows.new.items) }
{
    let Some((phrase, rest)) = first_field(before_comment(line)) else {
        return Ok(true);
    };
    let Ok(row) = row_of(phrase, rest) else {
        return Ok(false);
    };
    if rows.len() >= ROWS_LIMIT {
        return Ok(false);
    }
    rows.push(row)?;
    Ok(true)
}
