ghost use Rattle.std.specs.Prelude.{◌≡◌, true, ⊤};
ghost use Rattle.std.specs.Cmp.{eq_by_cmp_equiv, partial_equiv_from_equiv, partial_order_from_total};
ghost use Rattle.std.specs.Ordering.{as_partial_cmp, eq_by_cmp};
ghost use Rattle.std.proofs.Common.{refl};
ghost use Rattle.std.specs.Option.{option_map_or};
ghost use Rattle.std.specs.Str.{bytes_eq};
ghost use Rattle.chew_buffer.specs.Order.{least_phrase, ranked_cmp, ranked_total};

use crate::order::pair_order;
use chew_syllable::{Key, Phrase};
use std::alloc::AllocError;
use std::cmp::Ordering;
use std::marker::Model;

/// The phrase that no other is below: the least character that may stand in one.
const LEAST_PHRASE: &str = "\u{A1}";

/// A pair by its rank in image order: by its key's length, then the key's codes, then the phrase's bytes.
#[derive(Debug, Drop)]
pub(crate) struct Ranked {
    pub(crate) key: Key,
    pub(crate) phrase: Phrase,
}

impl Model for Ranked {
    ghost use Rattle.chew_buffer.specs.Order.{Pair};

    ghost Value = { Pair };

    ghost view = { λ ranked. record { key = ranked.key; phrase = ranked.phrase } };
}

impl Ranked {
    /// The pair, ranked. It takes no memory.
    pub(crate) fn of(key: &Key, phrase: &Phrase) -> Ranked
        ensures { result ≡ record { key = key.now; phrase = phrase.now } }
    {
        Ranked {
            key: key.copy(),
            phrase: phrase.copy(),
        }
    }

    /// A place in the order that no pair of the key is below: that of the least phrase. It takes no memory.
    pub(crate) fn first_of(key: &Key) -> Ranked
        ensures { result ≡ record { key = key.now; phrase = least_phrase } }
    {
        Ranked {
            key: key.copy(),
            phrase: Phrase::of(LEAST_PHRASE),
        }
    }

    /// Whether its key is the one that is wanted; where none is named, each is.
    pub(crate) fn is_wanted(&self, only: &Option<Key>) -> bool
        ensures { result ≡ option_map_or (bytes_eq self.now.key) only.now true }
    {
        match only {
            Some(key) => self.key.list() == key.list(),
            None => true,
        }
    }
}

impl Clone for Ranked {
    ghost is_clone = { λ pair copy. copy ≡ pair };

    ghost is_infallible = { λ _. ⊤ };

    fn clone(&self) -> Result<Ranked, AllocError> {
        Ok(Ranked::of(&self.key, &self.phrase))
    }
}

impl PartialEq for Ranked {
    ghost eq = { eq_by_cmp ranked_cmp };

    ghost laws = { partial_equiv_from_equiv (eq_by_cmp_equiv ranked_total) };

    fn eq(&self, other: &Ranked) -> bool {
        self.cmp(other).is_eq()
    }
}

impl Eq for Ranked {
    ghost laws = { eq_by_cmp_equiv ranked_total };
}

impl PartialOrd for Ranked {
    ghost partial_cmp = { as_partial_cmp ranked_cmp };

    ghost laws = { partial_order_from_total ranked_total };

    fn partial_cmp(&self, other: &Ranked) -> Option<Ordering> {
        Some(self.cmp(other))
    }
}

impl Ord for Ranked {
    ghost cmp = { ranked_cmp };

    ghost total = { ranked_total };

    ghost matches_partial_cmp = { λ x y. refl };

    ghost matches_eq = { λ x y. refl };

    fn cmp(&self, other: &Ranked) -> Ordering {
        pair_order(&self.key, &self.phrase, &other.key, &other.phrase)
    }
}
