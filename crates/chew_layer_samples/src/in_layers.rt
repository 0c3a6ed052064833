//! The layers, and the snapshot that waits.

ghost use Rattle.std.specs.Prelude.{◌≡◌, ◌≤◌, ◌++◌, [], ◌∷◌, IfOk, IfSome, IsTrue, None, OnErr, OnOk, Some, false, is_some, length, option_map};
ghost use Rattle.std.specs.Arc.{arc_value};
ghost use Rattle.chew_spec_syllable.specs.Row.{image_cmp};
ghost use Rattle.chew_spec_dictionary.specs.Call.{is_proper};
ghost use Rattle.chew_spec_dictionary.specs.FiveRows.{five_rows};
ghost use Rattle.chew_spec_dictionary.specs.History.{after, answer, is_keepers, start_of};
ghost use Rattle.chew_spec_dictionary.specs.Order.{in_order};
ghost use Rattle.chew_spec_layers.specs.Layers.{Waiting, frozen_by, frozen_marks, installed_by, layers_of};
ghost use Rattle.chew_spec_layers.specs.Need.{need_of};
ghost use Rattle.chew_spec_layers.specs.Overlay.{overlay};
ghost use Rattle.chew_plain.specs.Call.{call_of, reply_of};
ghost use Rattle.chew_layers.specs.Need.{meaning_of};
ghost use Rattle.chew_layer_samples.specs.Waiting.{waiting_of};

use crate::maps::{empty_map, five_map};
use chew_layers::{KEEPER, Layers, Need, Snapshot};
use chew_merge::merge;
use chew_plain::{Call, Reply};
use chew_syllable::NoMemory;
use chew_trie_read::Trie;
use std::alloc::Global;
use std::marker::Model;
use std::sync::Arc;

/// The number of who makes all other calls.
const USER: u32 = 1;

/// The layers, and the snapshot that waits, if one does.
#[derive(Drop)]
pub struct InLayers {
    alloc: Global,
    layers: Layers,
    snapshot: Option<Snapshot>,
}

impl Model for InLayers {
    ghost use Rattle.std.specs.Prelude.{◌≡◌, MatchOption, None, Some};
    ghost use Rattle.std.specs.Arc.{arc_value};
    ghost use Rattle.chew_spec_layers.specs.Layers as spec;
    ghost use Rattle.chew_layer_samples.specs.Waiting.{waiting_of};

    ghost Value = { spec.Layers };

    ghost view = { λ it. it.layers };

    ghost invariant = { λ it. MatchOption it.snapshot (it.layers.frozen ≡ None)
        (λ snapshot. (arc_value snapshot.base ≡ it.layers.base) × (it.layers.frozen ≡ Some (waiting_of snapshot))) };
}

impl InLayers {
    /// Layers over a map, before any call.
    pub fn over(alloc: Global, base: Arc<Trie>, life: u64, cap: u32) -> InLayers
        requires few { length (arc_value base) ≤ 200_000 }
        requires cap { cap ≤ 200_000 }
        ensures { result ≡ layers_of (record { pairs = arc_value base; life = life; cap = cap }) }
    {
        InLayers {
            alloc,
            layers: Layers::of(alloc, base, life, cap),
            snapshot: None,
        }
    }

    /// Layers over the map of no rows.
    pub fn empty(alloc: Global, life: u64, cap: u32) -> Result<InLayers, NoMemory>
        requires { cap ≤ 200_000 }
        ensures { IfOk result (λ it. it ≡ layers_of (record { pairs = []; life = life; cap = cap })) }
    {
        let base = empty_map(alloc)?;
        Ok(InLayers::over(alloc, base, life, cap))
    }

    /// Layers over the map of five rows.
    pub fn five(alloc: Global, life: u64, cap: u32) -> Result<InLayers, NoMemory>
        requires { cap ≤ 200_000 }
        ensures { IfOk result (λ it. it ≡ layers_of (record { pairs = in_order image_cmp five_rows; life = life; cap = cap })) }
    {
        let base = five_map(alloc)?;
        Ok(InLayers::over(alloc, base, life, cap))
    }

    /// Makes a call of a user, whose number is 1.
    pub fn make(&mut self, call: &Call) -> Result<Reply, NoMemory>
        requires proper { IsTrue (is_proper (call_of call.now)) }
        requires user { is_keepers (call_of call.now) ≡ false }
        ensures ok { IfOk result (λ reply. reply_of reply ≡ (answer (after (start_of self.old.start) self.old.journal) (call_of call.now)).reply) }
        ensures journal { OnOk result (self.new.journal ≡ self.old.journal ++ record { who = 1; call = call_of call.now } ∷ []) }
        ensures start { self.new.start ≡ self.old.start }
        ensures base { self.new.base ≡ self.old.base }
        ensures frozen { self.new.frozen ≡ self.old.frozen }
        ensures err { OnErr result (self.new ≡ self.old) }
    {
        self.layers.apply(USER, call)
    }

    /// Has a snapshot wait, or has the one that waits go on waiting; and tells its number.
    pub fn freeze(&mut self) -> Result<u64, NoMemory>
        ensures ok { OnOk result (self.new ≡ frozen_by self.old 0) }
        ensures number { IfOk result (λ number. option_map (λ waiting. waiting.number) self.new.frozen ≡ Some number) }
        ensures err { OnErr result (self.new ≡ self.old) }
    {
        let snapshot = self.layers.freeze(KEEPER)?;
        let number = snapshot.upto;
        self.snapshot = Some(snapshot);
        Ok(number)
    }

    /// The map of the snapshot that waits, if one does.
    pub fn merged(&self) -> Result<Option<Arc<Trie>>, NoMemory>
        ensures waits { IfOk result (λ merged. is_some merged ≡ is_some self.now.frozen) }
        ensures map { IfOk result (λ merged. IfSome merged (λ map. arc_value map ≡ overlay self.now.base (frozen_marks self.now.frozen))) }
        ensures few { IfOk result (λ merged. IfSome merged (λ map. length (arc_value map) ≤ 200_000)) }
    {
        match &self.snapshot {
            Some(snapshot) => {
                let map = self.map_of(snapshot)?;
                Ok(Some(map))
            }
            None => Ok(None),
        }
    }

    /// The map of the snapshot that waits.
    fn map_of(&self, snapshot: &Snapshot) -> Result<Arc<Trie>, NoMemory>
        requires base { arc_value snapshot.now.base ≡ self.now.base }
        requires waits { self.now.frozen ≡ Some (waiting_of snapshot.now) }
        ensures map { IfOk result (λ map. arc_value map ≡ overlay self.now.base (arc_value snapshot.now.frozen)) }
        ensures few { IfOk result (λ map. length (arc_value map) ≤ 200_000) }
    {
        self.layers.keeps();
        let map = merge(self.alloc, snapshot)?;
        Ok(Arc::new(self.alloc, map)?)
    }

    /// The life that the snapshot that waits has, if one does.
    pub fn waiting_life(&self) -> Option<u64>
        ensures { result ≡ option_map (λ waiting. waiting.life) self.now.frozen }
    {
        let snapshot = self.snapshot.as_ref()?;
        Some(snapshot.life)
    }

    /// Has the snapshot that waits merged and installed. Whether one waited.
    pub fn install(&mut self) -> Result<bool, NoMemory>
        ensures waited { IfOk result (λ waited. waited ≡ is_some self.old.frozen) }
        ensures ok { OnOk result ((waiting : Waiting) → self.old.frozen ≡ Some waiting
            → self.new ≡ installed_by self.old 0 waiting (overlay self.old.base waiting.marks)) }
        ensures none { OnOk result (self.old.frozen ≡ None → self.new ≡ self.old) }
        ensures err { OnErr result (self.new ≡ self.old) }
    {
        match &self.snapshot {
            Some(snapshot) => {
                let map = self.map_of(snapshot)?;
                self.layers.install(KEEPER, map);
                self.snapshot = None;
                Ok(true)
            }
            None => Ok(false),
        }
    }

    /// What the layers need.
    pub fn need(&self) -> Need
        ensures { meaning_of result ≡ need_of self.now }
    {
        self.layers.need()
    }

    /// How many calls there were.
    pub fn calls(&self) -> usize
        ensures { result ≡ length self.now.journal }
    {
        self.layers.journal().len()
    }
}
