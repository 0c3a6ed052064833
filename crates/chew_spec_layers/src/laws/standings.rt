//! Laws of three layers that stand for the plain map.

ghost use Rattle.std.specs.Prelude.{◌≡◌, ℕ, List, take, length, is_some, true, false, Some, Option};
ghost use Rattle.std.specs.Option.{option_map_or};
ghost use Rattle.chew_spec_dictionary.specs.Dictionary.{Dictionary, is_map};
ghost use Rattle.chew_spec_dictionary.specs.System.{row_of};
ghost use Rattle.chew_spec_dictionary.specs.History.{Entry, start_of, after, answer, is_keepers};
ghost use Rattle.chew_spec_layers.specs.Layers.{Layers, Waiting, layers_of, frozen_marks, map_in, dictionary_in, noted, marked_by};
ghost use Rattle.chew_spec_layers.specs.Mark.{Marked, mark_of, row_of_mark};
ghost use Rattle.chew_spec_layers.specs.Overlay.{overlay, says_over};
ghost use Rattle.chew_spec_layers.specs.Standing.{StandForMap};
ghost use Rattle.chew_spec_layers.specs.Touches.{is_about, tells_change, touched};

/// Three layers that stand for the plain map hold what it holds after their journal, and say of each pair what it says.
pub fn what_layers_hold()
    ensures map { (layers : Layers) → StandForMap layers → map_in layers ≡ (after (start_of layers.start) layers.journal).dictionary.pairs }
    ensures dictionary { (layers : Layers) → StandForMap layers → dictionary_in layers ≡ (after (start_of layers.start) layers.journal).dictionary }
    ensures pair { (layers : Layers) → StandForMap layers → (key phrase : List ℕ)
        → says_over layers.fresh key phrase (says_over (frozen_marks layers.frozen) key phrase (row_of layers.base key phrase))
        ≡ row_of (after (start_of layers.start) layers.journal).dictionary.pairs key phrase }
{}

/// The base is the map after the installed entries. What waits has a mark for exactly the pairs touched from there to its
/// number, over the base it is the map then, and its life is the life then.
pub fn base_and_what_waits()
    ensures base { (layers : Layers) → StandForMap layers
        → layers.base ≡ (after (start_of layers.start) (take layers.installed layers.journal)).dictionary.pairs }
    ensures map { (layers : Layers) → StandForMap layers → (waiting : Waiting) → layers.frozen ≡ Some waiting
        → overlay layers.base waiting.marks ≡ (after (start_of layers.start) (take waiting.number layers.journal)).dictionary.pairs }
    ensures life { (layers : Layers) → StandForMap layers → (waiting : Waiting) → layers.frozen ≡ Some waiting
        → waiting.life ≡ (after (start_of layers.start) (take waiting.number layers.journal)).dictionary.life }
    ensures pairs { (layers : Layers) → StandForMap layers → (waiting : Waiting) → layers.frozen ≡ Some waiting → (key phrase : List ℕ)
        → is_some (mark_of waiting.marks key phrase) ≡ touched (start_of layers.start) layers.journal layers.installed waiting.number key phrase }
{}

/// The fresh layer has a mark for exactly the pairs touched since the number that waits, or since the installed entries
/// where nothing waits.
pub fn fresh_layer()
    ensures pairs { (layers : Layers) → StandForMap layers → (key phrase : List ℕ) → is_some (mark_of layers.fresh key phrase)
        ≡ touched (start_of layers.start) layers.journal
        (option_map_or (λ waiting. waiting.number) layers.frozen layers.installed) (length layers.journal) key phrase }
{}

/// New layers stand for the map that they are over, and they go on to stand for the map after each call: one that changes no
/// pair and isn't the keeper's is noted, one that changes its pair gives it a fresh mark of what it is then.
pub fn calls_on_layers()
    ensures new { (start : Dictionary) → is_map start.pairs ≡ true → StandForMap (layers_of start) }
    ensures same { (layers : Layers) (e : Entry) → StandForMap layers → is_keepers e.call ≡ false
        → tells_change (answer (after (start_of layers.start) layers.journal) e.call).reply ≡ false → StandForMap (noted layers e) }
    ensures changed { (layers : Layers) (e : Entry) (marked : Marked) → StandForMap layers → is_about marked.key marked.phrase e.call ≡ true
        → tells_change (answer (after (start_of layers.start) layers.journal) e.call).reply ≡ true
        → row_of (answer (after (start_of layers.start) layers.journal) e.call).point.dictionary.pairs marked.key marked.phrase
        ≡ row_of_mark marked.key marked.phrase marked.mark
        → StandForMap (marked_by layers e marked (answer (after (start_of layers.start) layers.journal) e.call).point.dictionary.life) }
{}
