//! Whether rows make a dictionary.

ghost use Rattle.std.specs.Prelude.{◌≡◌};
ghost use Rattle.std.specs.List.{list_any};
ghost use Rattle.chew_spec_syllable.specs.Row.{is_pair_of, no_pair_twice};

use chew_syllable::KeyRow;

/// Whether a row is of this pair.
fn is_of(row: &KeyRow, other: &KeyRow) -> bool
    ensures { result ≡ is_pair_of row.now.key row.now.phrase other.now }
{
    other.key.list() == row.key.list() && other.phrase.text() == row.phrase.text()
}

/// Whether one of the others is of the row's pair.
fn has_pair(others: &[KeyRow], row: &KeyRow) -> bool
    ensures { result ≡ list_any (is_pair_of row.now.key row.now.phrase) others.now }
{
    others.iter().any(|other| is_of(row, other))
}

/// Whether no two rows are of one pair of a key and a phrase.
pub fn are_apart(rows: &[KeyRow]) -> bool
    ensures { result ≡ no_pair_twice rows.now }
{
    match rows {
        [] => true,
        [row, rest @ ..] => !has_pair(rest, row) && are_apart(rest),
    }
}
