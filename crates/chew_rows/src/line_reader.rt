ghost use Rattle.std.specs.Prelude.{◌≡◌, ◌≤◌, Ok, IfOk, IfErr, OnOk, length};
ghost use Rattle.chew_spec_text.specs.DictionaryText.{dictionary_rows, with_row};
ghost use Rattle.chew_rows.specs.Lines.{taken};
ghost use Rattle.chew_rows.specs.Pairs.{HasPairsOf};
ghost use Rattle.chew_rows.specs.Faults.{IsFaultOf, IsFaultOfLine};

use crate::cause::{RowCause, RowsFault};
use crate::fields::{before_comment, first_field};
use crate::limits::ROWS_LIMIT;
use crate::pair::Pair;
use crate::row_line::row_of;
use chew_syllable::KeyRow;
use chew_text::Lines;
use std::alloc::Global;
use std::collections::BTreeSet;

/// The rows of a text that isn't too long, by its lines, each of which is compared with all before it; or the first line
/// that gives no row or one row too many.
pub(crate) fn rows_by_line(alloc: Global, text: &[u8]) -> Result<Vec<KeyRow>, RowsFault>
    requires { length text.now ≤ 67_108_864 }
    ensures ok { IfOk result (λ rows. dictionary_rows text.now ≡ Ok rows.items) }
    ensures bad { IfErr result (λ fault. IsFaultOf (dictionary_rows text.now) fault) }
{
    let mut rows = Vec::new(alloc);
    let mut pairs = BTreeSet::new(alloc);
    let mut lines = Lines::of(text);
    let mut number: u32 = 0;
    'lines: while let Some(line) = lines.next_line() {
        number += 1;
        read_line(&mut rows, &mut pairs, number, line)?;
    }
    Ok(rows)
}

/// Appends the row of a line, where it has one.
fn read_line<'a>(
    rows: &mut Vec<KeyRow>,
    pairs: &mut BTreeSet<Pair<'a>>,
    number: u32,
    line: &'a [u8],
) -> Result<(), RowsFault>
    requires pairs { HasPairsOf rows.old.items pairs.old }
    ensures ok { OnOk result (taken rows.old.items line.now ≡ Ok rows.new.items) }
    ensures pairs { OnOk result (HasPairsOf rows.new.items pairs.new) }
    ensures bad { IfErr result (λ fault. IsFaultOfLine number (taken rows.old.items line.now) fault) }
{
    match first_field(before_comment(line)) {
        Some((phrase, rest)) => match row_of(phrase, rest) {
            Ok(row) => add_row(rows, pairs, number, row, phrase),
            Err(cause) => Err(RowsFault::Bad {
                line: number,
                cause,
            }),
        },
        None => Ok(()),
    }
}

/// Appends a row, whose phrase is lent besides.
fn add_row<'a>(
    rows: &mut Vec<KeyRow>,
    pairs: &mut BTreeSet<Pair<'a>>,
    number: u32,
    row: KeyRow,
    phrase: &'a [u8],
) -> Result<(), RowsFault>
    requires pairs { HasPairsOf rows.old.items pairs.old }
    requires phrase { row.phrase ≡ phrase.now }
    ensures ok { OnOk result (with_row rows.old.items (Ok row) ≡ Ok rows.new.items) }
    ensures pairs { OnOk result (HasPairsOf rows.new.items pairs.new) }
    ensures bad { IfErr result (λ fault. IsFaultOfLine number (with_row rows.old.items (Ok row)) fault) }
{
    let added = match pairs.insert(Pair::of(&row.key, phrase)) {
        Ok(added) => added,
        Err(_) => return Err(RowsFault::NoMemory),
    };
    if !added {
        return Err(RowsFault::Bad {
            line: number,
            cause: RowCause::Twice,
        });
    }
    if rows.len() >= ROWS_LIMIT {
        return Err(RowsFault::Bad {
            line: number,
            cause: RowCause::Rows,
        });
    }
    match rows.push(row) {
        Ok(()) => Ok(()),
        Err(_) => Err(RowsFault::NoMemory),
    }
}
