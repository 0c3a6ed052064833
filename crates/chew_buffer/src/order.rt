ghost use Rattle.std.specs.Prelude.{◌≡◌};
ghost use Rattle.chew_spec_syllable.specs.Row.{pair_cmp};
ghost use Rattle.chew_buffer.specs.Order.{key_cmp};

use chew_syllable::{Key, Phrase};
use std::cmp::Ordering;

/// How two keys stand in image order.
fn key_order(key: &Key, other: &Key) -> Ordering
    ensures { result ≡ key_cmp key.now other.now }
{
    match key.len().cmp(&other.len()) {
        Ordering::Equal => key.list().cmp(other.list()),
        unequal => unequal,
    }
}

/// How two pairs stand in image order.
pub fn pair_order(key: &Key, phrase: &Phrase, other_key: &Key, other_phrase: &Phrase) -> Ordering
    ensures { result ≡ pair_cmp key.now phrase.now other_key.now other_phrase.now }
{
    match key_order(key, other_key) {
        Ordering::Equal => phrase.text().cmp(other_phrase.text()),
        unequal => unequal,
    }
}
