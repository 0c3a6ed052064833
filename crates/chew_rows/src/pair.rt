ghost use Rattle.std.specs.Prelude.{◌≡◌};

use arrayvec::ArrayVec;
use chew_syllable::{KEY_LIMIT, Key, Syllable, array_of};

/// A key and the bytes of a phrase under it, which are lent from the text.
#[derive(PartialEq, Eq, PartialOrd, Ord, Drop)]
pub(crate) struct Pair<'a> {
    pub(crate) key: ArrayVec<Syllable, KEY_LIMIT>,
    pub(crate) phrase: &'a [u8],
}

impl<'a> Pair<'a> {
    /// The pair of this key and this phrase. It takes no memory.
    pub(crate) fn of(key: &Key, phrase: &'a [u8]) -> Pair<'a>
        ensures key { result.key.items ≡ key.now }
        ensures phrase { result.phrase.now ≡ phrase.now }
    {
        Pair {
            key: array_of(key.list()),
            phrase,
        }
    }
}
