ghost use Rattle.std.specs.Prelude.{◌≡◌, IsTrue};
ghost use Rattle.std.specs.List.{list_all};
ghost use Rattle.chew_spec_dictionary.specs.Call.{is_hit};

use crate::hit::Hit;
use crate::kept::all_are_hits;
use std::marker::Model;

/// What a look found, by the intervals' starts, then their lengths.
#[derive(Debug, Drop)]
pub struct Hits {
    list: Vec<Hit>,
}

impl Model for Hits {
    ghost use Rattle.std.specs.Prelude.{IsTrue, List};
    ghost use Rattle.std.specs.List.{list_all};
    ghost use Rattle.chew_spec_dictionary.specs.Call.{Hit as Found, is_hit};

    ghost Value = { List Found };

    ghost view = { λ hits. hits.list.items };

    ghost invariant = { λ hits. IsTrue (list_all is_hit hits.list.items) };
}

impl Hits {
    /// These hits.
    pub fn of(list: Vec<Hit>) -> Hits
        ensures { result ≡ list.items }
    {
        all_are_hits(list.as_slice());
        Hits { list }
    }

    /// The hits, in order.
    pub fn list(&self) -> &[Hit]
        ensures value { result.now ≡ self.now }
        ensures valid { IsTrue (list_all is_hit result.now) }
    {
        self.list.as_slice()
    }

    /// The hits, in order, to be kept.
    pub fn into_vec(self) -> Vec<Hit>
        ensures { result.items ≡ self }
    {
        self.list
    }
}
