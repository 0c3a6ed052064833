ghost use Rattle.std.specs.Prelude.{◌≡◌, ◌<◌, ◌≤◌, IsTrue, IfOk, IfErr, OnOk, OnErr, length, is_some, not};
ghost use Rattle.std.specs.Option.{option_copied};
ghost use Rattle.chew_spec_syllable.specs.Row.{pair_cmp};
ghost use Rattle.chew_spec_dictionary.specs.Dictionary.{is_map, put_row, without};
ghost use Rattle.chew_spec_dictionary.specs.System.{row_of};
ghost use Rattle.chew_plain.specs.Standing.{Lacks, Stands};

use crate::order::pair_order;
use chew_syllable::{Key, KeyRow, NoMemory, Phrase};

/// The place of the pair's row among those of a map; as an error the place where it would stand.
fn place_of(rows: &[KeyRow], key: &Key, phrase: &Phrase) -> Result<usize, usize>
    requires map { IsTrue (is_map rows.now) }
    ensures ok { IfOk result (λ place. Stands rows.now key.now phrase.now place) }
    ensures err { IfErr result (λ place. Lacks rows.now key.now phrase.now place) }
{
    rows.binary_search_by(|row| pair_order(row, key, phrase))
}

/// The row of the pair.
pub(crate) fn find<'a>(rows: &'a [KeyRow], key: &Key, phrase: &Phrase) -> Option<&'a KeyRow>
    requires map { IsTrue (is_map rows.now) }
    ensures { option_copied result ≡ row_of rows.now key.now phrase.now }
{
    match place_of(rows, key, phrase) {
        Ok(place) => Some(&rows[place]),
        Err(_) => None,
    }
}

/// Puts a row in at its place, in place of an earlier one of its pair. Whether there was none.
pub(crate) fn put(rows: &mut Vec<KeyRow>, row: KeyRow) -> Result<bool, NoMemory>
    requires map { IsTrue (is_map rows.now.items) }
    ensures new { IfOk result (λ new. new ≡ not (is_some (row_of rows.old.items row.key row.phrase))) }
    ensures ok { OnOk result (rows.new.items ≡ put_row row rows.old.items) }
    ensures err { OnErr result (rows.new.items ≡ rows.old.items) }
{
    match place_of(rows.as_slice(), &row.key, &row.phrase) {
        Ok(place) => {
            rows[place] = row;
            Ok(false)
        }
        Err(place) => {
            rows.insert(place, row)?;
            Ok(true)
        }
    }
}

/// Takes the row of a pair out. Whether there was one.
pub(crate) fn take_out(rows: &mut Vec<KeyRow>, key: &Key, phrase: &Phrase) -> bool
    requires map { IsTrue (is_map rows.now.items) }
    ensures held { result ≡ is_some (row_of rows.old.items key.now phrase.now) }
    ensures left { rows.new.items ≡ without key.now phrase.now rows.old.items }
{
    match place_of(rows.as_slice(), key, phrase) {
        Ok(place) => {
            let _gone = rows.remove(place);
            true
        }
        Err(_) => false,
    }
}
