//! Laws of what layers need.

ghost use Rattle.std.specs.Prelude.{◌≡◌, ◌≢◌, ◌↔◌, [], None, Some};
ghost use Rattle.chew_spec_dictionary.specs.History.{after, start_of};
ghost use Rattle.chew_spec_layers.specs.Layers as parts;
ghost use Rattle.chew_spec_layers.specs.Layers.{Layers, map_in};
ghost use Rattle.chew_spec_layers.specs.Need.{Fresh, Nothing, Waiting, need_of};
ghost use Rattle.chew_spec_layers.specs.Standing.{StandForMap};

/// Waiting exactly where marks wait, also where there are fresh ones; Fresh exactly where none wait and there are fresh ones; and
/// else Nothing, where the base of layers that stand for the plain map is that map.
pub fn needs_of_layers()
    ensures waiting { (layers : Layers) → (need_of layers ≡ Waiting) ↔ (layers.frozen ≢ None) }
    ensures fresh { (layers : Layers) → (need_of layers ≡ Fresh) ↔ ((layers.frozen ≡ None) × (layers.fresh ≢ [])) }
    ensures nothing { (layers : Layers) → (need_of layers ≡ Nothing) ↔ ((layers.frozen ≡ None) × (layers.fresh ≡ [])) }
    ensures base { (layers : Layers) → StandForMap layers → need_of layers ≡ Nothing
        → layers.base ≡ (after (start_of layers.start) layers.journal).dictionary.pairs }
{}
