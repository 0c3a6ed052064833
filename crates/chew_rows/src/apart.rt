ghost use Rattle.std.specs.Prelude.{◌≡◌, IfOk, IsTrue, map};
ghost use Rattle.std.specs.List.Sorted.{IsStrictlySortedBy};
ghost use Rattle.chew_spec_syllable.specs.Row.{no_pair_twice};
ghost use Rattle.chew_rows.specs.Pairs.{row_cmp};

use chew_syllable::{KeyRow, NoMemory};
use std::alloc::Global;
use std::cmp::Ordering;

/// Whether no two rows are of one pair of a key and a phrase.
pub(crate) fn are_apart(alloc: Global, rows: &[KeyRow]) -> Result<bool, NoMemory>
    ensures { IfOk result (λ apart. IsTrue apart → IsTrue (no_pair_twice rows.now)) }
{
    let mut lent = Vec::with_capacity(alloc, rows.len())?;
    for row in rows {
        lent.push(row)?;
    }
    Ok(are_apart_once_sorted(lent.as_mut_slice()))
}

/// Sorts rows by their pairs, and answers whether no two of them are of one.
fn are_apart_once_sorted(rows: &mut [&KeyRow]) -> bool
    ensures { IsTrue result → IsTrue (no_pair_twice (map (λ row. row.now) rows.old)) }
{
    rows.sort_unstable_by(|row, other| pair_order(row, other));
    rise(rows)
}

/// Whether each row comes before the next one by its pair.
fn rise(rows: &[&KeyRow]) -> bool
    ensures { IsTrue result → IsStrictlySortedBy row_cmp (map (λ row. row.now) rows.now) }
{
    for place in 1..rows.len() {
        if !pair_order(rows[place - 1], rows[place]).is_lt() {
            return false;
        }
    }
    true
}

/// How the pairs of two rows stand to each other, in an order that has no further meaning.
fn pair_order(row: &KeyRow, other: &KeyRow) -> Ordering
    ensures { result ≡ row_cmp row.now other.now }
{
    match row.key.list().cmp(other.key.list()) {
        Ordering::Equal => row.phrase.text().cmp(other.phrase.text()),
        unequal => unequal,
    }
}
