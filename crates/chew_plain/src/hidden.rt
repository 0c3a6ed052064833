ghost use Rattle.std.specs.Prelude.{◌≡◌};
ghost use Rattle.chew_spec_dictionary.specs.HiddenPairs.{is_hidden, can_hide};

use chew_syllable::{KeyRow, Syllable};

/// The time of a hidden pair.
pub const HIDDEN_TIME: u64 = u64::MAX;

/// The least syllables of a key whose phrases can be hidden.
const LEAST_SYLLABLES: usize = 2;

/// Whether phrases of this key can be hidden: it has at least two syllables.
pub fn can_hide(key: &[Syllable]) -> bool
    ensures { result ≡ can_hide key.now }
{
    key.len() >= LEAST_SYLLABLES
}

/// Whether the row's pair is hidden.
pub(crate) fn is_hidden(row: &KeyRow) -> bool
    ensures { result ≡ is_hidden row.now }
{
    can_hide(row.key.list()) && row.time == HIDDEN_TIME
}
