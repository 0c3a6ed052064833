//! Laws of what layers that stand for the plain map give the keeper.

ghost use Rattle.std.specs.Prelude.{◌≡◌, ℕ, List, Some, IsSome};
ghost use Rattle.chew_spec_syllable.specs.Row.{Row};
ghost use Rattle.chew_spec_layers.specs.Layers.{Layers, Waiting, frozen_marks};
ghost use Rattle.chew_spec_layers.specs.Need.{need_of};
ghost use Rattle.chew_spec_layers.specs.Overlay.{overlay};
ghost use Rattle.chew_spec_layers.specs.Standing.{StandForMap};
ghost use Rattle.chew_spec_shared.specs.Needs.{IsNeed};
ghost use Rattle.chew_spec_shared.specs.Snapshot.{IsMerge, IsSnapshot};

/// A layer that waits is the snapshot after the journal, a merge after the journal is the base under what waits, whose number it
/// has, and what the layers need is what is needed after the journal.
pub fn what_layers_give()
    ensures snapshot { (layers : Layers) → StandForMap layers → (waiting : Waiting) → layers.frozen ≡ Some waiting
        → IsSnapshot layers.start layers.journal layers.base waiting }
    ensures merge { (layers : Layers) → StandForMap layers → (number : ℕ) (rows : List Row) → IsMerge layers.start layers.journal number rows
        → IsSome layers.frozen × (rows ≡ overlay layers.base (frozen_marks layers.frozen))
        × ((waiting : Waiting) → layers.frozen ≡ Some waiting → waiting.number ≡ number) }
    ensures need { (layers : Layers) → StandForMap layers → IsNeed layers.start layers.journal (need_of layers) }
{}
