ghost use Rattle.chew_spec_dictionary.specs.Look.{shown_hit_cmp};
ghost use Rattle.std.specs.Prelude.{◌≡◌, ◌<◌, ◌^◌, OnOk, OnErr, length};
ghost use Rattle.chew_spec_syllable.specs.Row.{image_cmp, pair_cmp};
ghost use Rattle.chew_spec_dictionary.specs.Order.{in_order};
ghost use Rattle.chew_plain.specs.Order.{key_cmp};

use crate::hit::Hit;
use chew_syllable::{Key, KeyRow, NoMemory, Phrase, Syllable};
use std::cmp::Ordering;

/// How two keys stand in image order.
pub(crate) fn key_order(key: &[Syllable], other: &[Syllable]) -> Ordering
    ensures { result ≡ key_cmp key.now other.now }
{
    match key.len().cmp(&other.len()) {
        Ordering::Equal => key.cmp(other),
        unequal => unequal,
    }
}

/// How a row and a pair stand in image order.
pub(crate) fn pair_order(row: &KeyRow, key: &Key, phrase: &Phrase) -> Ordering
    ensures { result ≡ pair_cmp row.now.key row.now.phrase key.now phrase.now }
{
    match key_order(row.key.list(), key.list()) {
        Ordering::Equal => row.phrase.text().cmp(phrase.text()),
        unequal => unequal,
    }
}

/// How two rows stand in image order.
pub fn image_order(row: &KeyRow, other: &KeyRow) -> Ordering
    ensures { result ≡ image_cmp row.now other.now }
{
    pair_order(row, &other.key, &other.phrase)
}

/// How two hits of one interval are shown.
pub(crate) fn shown_order(hit: &Hit, other: &Hit) -> Ordering
    ensures { result ≡ shown_hit_cmp hit.now other.now }
{
    match other.freq.cmp(&hit.freq) {
        Ordering::Equal => hit.phrase.text().cmp(other.phrase.text()),
        unequal => unequal,
    }
}

/// Puts rows in image order.
pub fn sort_rows(rows: &mut Vec<KeyRow>) -> Result<(), NoMemory>
    ensures ok { OnOk result (rows.new.items ≡ in_order image_cmp rows.old.items) }
    ensures err { OnErr result (rows.new.items ≡ rows.old.items) }
    ensures len { length rows.new.items ≡ length rows.old.items }
{
    rows.sort_by(|row, other| image_order(row, other))?;
    Ok(())
}

/// Puts the hits of one interval in the order in which they are shown: by frequency falling, then by their
/// phrases' bytes.
pub fn sort_hits(hits: &mut Vec<Hit>) -> Result<(), NoMemory>
    ensures ok { OnOk result (hits.new.items ≡ in_order shown_hit_cmp hits.old.items) }
    ensures err { OnErr result (hits.new.items ≡ hits.old.items) }
{
    hits.sort_by(|hit, other| shown_order(hit, other))?;
    Ok(())
}
