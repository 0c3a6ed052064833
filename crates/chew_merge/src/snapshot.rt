ghost use Rattle.std.specs.Prelude.{◌≡◌, ◌≤◌, IfOk, Some, length, take};
ghost use Rattle.std.specs.Arc.{arc_value};
ghost use Rattle.chew_spec_dictionary.specs.History.{after, start_of};
ghost use Rattle.chew_spec_layers.specs.Layers.{Layers};
ghost use Rattle.chew_spec_layers.specs.Overlay.{overlay};
ghost use Rattle.chew_spec_layers.specs.Standing.{StandForMap};

use crate::new_base::merge_layer;
use chew_layers::Snapshot;
use chew_syllable::NoMemory;
use chew_trie_read::Trie;
use std::alloc::Global;

/// The map that a new base has: the rows of the snapshot's base whose pair has no mark, and those of its live marks. For a
/// snapshot of a dictionary in layers it is the dictionary's map after the first `upto` entries.
pub fn merge(alloc: Global, snapshot: &Snapshot) -> Result<Trie, NoMemory>
    requires few { length (overlay (arc_value snapshot.now.base) (arc_value snapshot.now.frozen)) ≤ 200_000 }
    ensures value { IfOk result (λ trie. trie ≡ overlay (arc_value snapshot.now.base) (arc_value snapshot.now.frozen)) }
    ensures prefix { IfOk result (λ trie. (layers : Layers) → StandForMap layers → arc_value snapshot.now.base ≡ layers.base
        → layers.frozen ≡ Some (record { marks = arc_value snapshot.now.frozen; number = snapshot.now.upto; life = snapshot.now.life })
        → trie ≡ (after (start_of layers.start) (take snapshot.now.upto layers.journal)).dictionary.pairs) }
{
    merge_layer(alloc, &*snapshot.base, &*snapshot.frozen)
}
