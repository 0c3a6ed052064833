ghost use Rattle.std.specs.Prelude.{◌≡◌};
ghost use Rattle.std.specs.Cmp.{eq_by_cmp_equiv, partial_equiv_from_equiv, partial_order_from_total};
ghost use Rattle.std.specs.Ordering.{as_partial_cmp, eq_by_cmp};
ghost use Rattle.std.proofs.Common.{refl};
ghost use Rattle.chew_plain.specs.Order.{key_cmp, key_total};

use crate::order::key_order;
use chew_syllable::Key;
use std::cmp::Ordering;
use std::marker::Model;

/// A key by its rank in image order: by its length, then by its syllables' codes.
#[derive(Debug, Drop)]
pub(crate) struct Ranked {
    key: Key,
}

impl Model for Ranked {
    ghost use Rattle.std.specs.Prelude.{List, ℕ};

    ghost Value = { List ℕ };

    ghost view = { λ ranked. ranked.key };
}

impl Ranked {
    /// The key, ranked. It takes no memory.
    pub(crate) fn of(key: &Key) -> Ranked
        ensures { result ≡ key.now }
    {
        Ranked { key: key.copy() }
    }
}

impl PartialEq for Ranked {
    ghost eq = { eq_by_cmp key_cmp };

    ghost laws = { partial_equiv_from_equiv (eq_by_cmp_equiv key_total) };

    fn eq(&self, other: &Ranked) -> bool {
        self.cmp(other).is_eq()
    }
}

impl Eq for Ranked {
    ghost laws = { eq_by_cmp_equiv key_total };
}

impl PartialOrd for Ranked {
    ghost partial_cmp = { as_partial_cmp key_cmp };

    ghost laws = { partial_order_from_total key_total };

    fn partial_cmp(&self, other: &Ranked) -> Option<Ordering> {
        Some(self.cmp(other))
    }
}

impl Ord for Ranked {
    ghost cmp = { key_cmp };

    ghost total = { key_total };

    ghost matches_partial_cmp = { λ x y. refl };

    ghost matches_eq = { λ x y. refl };

    fn cmp(&self, other: &Ranked) -> Ordering {
        key_order(self.key.list(), other.key.list())
    }
}
