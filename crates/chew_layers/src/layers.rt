ghost use Rattle.std.specs.Prelude.{◌≡◌, ◌≤◌, ◌++◌, [], ◌∷◌, IsTrue, length, map, Some};
ghost use Rattle.std.specs.Arc.{arc_value};
ghost use Rattle.chew_spec_layers.specs.Layers.{frozen_marks, layers_of, map_in};
ghost use Rattle.chew_spec_layers.specs.Need.{need_of};
ghost use Rattle.chew_spec_layers.specs.Overlay.{overlay};
ghost use Rattle.chew_spec_layers.specs.Standing.{StandForMap};
ghost use Rattle.chew_plain.specs.Call.{entry_of};
ghost use Rattle.chew_layers.specs.Contents.{rows_held};
ghost use Rattle.chew_layers.specs.Need.{meaning_of};

use crate::held::Held;
use crate::layer::Layer;
use crate::need::Need;
use chew_plain::Entry;
use chew_trie_read::Trie;
use std::alloc::Global;
use std::marker::Model;
use std::sync::Arc;

/// When the marks that wait were frozen.
#[derive(Clone, Copy, Debug, Drop)]
pub(crate) struct FrozenAt {
    /// How many entries there were.
    pub(crate) number: u64,
    /// The life of the dictionary.
    pub(crate) life: u64,
}

/// The user's dictionary in three layers, and the journal of its calls. It is seen as its start, its layers and its journal.
#[derive(Drop)]
pub struct Layers {
    pub(crate) alloc: Global,
    /// The base at the start, where another was installed since.
    pub(crate) first: Option<Arc<Trie>>,
    pub(crate) first_life: u64,
    pub(crate) base: Arc<Trie>,
    pub(crate) waits: Option<FrozenAt>,
    pub(crate) frozen: Layer,
    pub(crate) fresh: Layer,
    pub(crate) life: u64,
    pub(crate) cap: u32,
    /// How many pairs the layers hold.
    pub(crate) count: u32,
    pub(crate) installed: u64,
    pub(crate) journal: Vec<Entry>,
}

impl Model for Layers {
    ghost use Rattle.chew_spec_layers.specs.Layers as spec;

    ghost Value = { spec.Layers };

    ghost use Rattle.chew_layers.specs.Inside.{IsKept, layers_in};

    ghost view = { layers_in };

    ghost invariant = { IsKept };
}

impl Layers {
    /// The dictionary of a base, with no entries. `life` is how many learns came before, and `cap` the number of pairs from which
    /// on no new one is added. It keeps the allocator, and takes no memory.
    pub fn of(alloc: Global, base: Arc<Trie>, life: u64, cap: u32) -> Layers
        requires few { length (arc_value base) ≤ 200_000 }
        requires cap { cap ≤ 200_000 }
        ensures value { result ≡ layers_of (record { pairs = arc_value base; life = life; cap = cap }) }
        ensures stands { StandForMap result }
        ensures few { length (map_in result) ≤ 200_000 }
        ensures below { length (overlay result.base (frozen_marks result.frozen)) ≤ 200_000 }
    {
        let count = base.total();
        let layers = Layers {
            alloc,
            first: None,
            first_life: life,
            base,
            waits: None,
            frozen: Layer::new(alloc),
            fresh: Layer::new(alloc),
            life,
            cap,
            count,
            installed: 0,
            journal: Vec::new(alloc),
        };
        layers.keeps();
        layers
    }

    /// All calls since the start, in their order.
    pub fn journal(&self) -> &[Entry]
        ensures { map entry_of result.now ≡ self.now.journal }
    {
        self.journal.as_slice()
    }

    /// All calls since the start, in their order, to be kept.
    pub fn into_journal(self) -> Vec<Entry>
        ensures { map entry_of result.items ≡ self.journal }
    {
        self.journal
    }

    /// What the layers need. It takes no memory.
    pub fn need(&self) -> Need
        ensures { meaning_of result ≡ need_of self.now }
    {
        if self.waits.is_some() {
            Need::Waiting
        } else if self.fresh.marks().is_empty() {
            Need::Nothing
        } else {
            Need::Fresh
        }
    }

    /// What every `Layers` keeps. It does nothing, and is there for proofs alone.
    pub fn keeps(&self)
        ensures stands { StandForMap self.now }
        ensures few { length (map_in self.now) ≤ 200_000 }
        ensures below { length (overlay self.now.base (frozen_marks self.now.frozen)) ≤ 200_000 }
    {
        let _count = self.count;
    }

    /// The layers, lent, to be read.
    pub(crate) fn held(&self) -> Held<'_>
        ensures { rows_held result ≡ map_in self.now }
    {
        Held {
            base: &self.base,
            frozen: self.frozen.marks(),
            fresh: self.fresh.marks(),
        }
    }
}
