//! Laws of what waits for the keeper.

ghost use Rattle.std.specs.Prelude.{◌≡◌, ◌≢◌, ℕ, List, true, Some};
ghost use Rattle.chew_spec_syllable.specs.Row.{Row};
ghost use Rattle.chew_spec_dictionary.specs.Dictionary.{Dictionary};
ghost use Rattle.chew_spec_dictionary.specs.History.{Entry, is_legal, start_of};
ghost use Rattle.chew_spec_layers.specs.Layers.{Waiting};
ghost use Rattle.chew_spec_layers.specs.Need.{Need};
ghost use Rattle.chew_spec_layers.specs.Overlay.{overlay};
ghost use Rattle.chew_spec_cell.specs.Sight.{HasSeen};
ghost use Rattle.chew_spec_shared.specs.Needs.{IsNeed};
ghost use Rattle.chew_spec_shared.specs.Snapshot.{IsMerge, IsSnapshot, installed_after, waiting_after};

/// However a legal history goes on by entries of others, what waited for the keeper goes on to wait, the base is the same, and
/// the merge of what waits is the same.
pub fn what_goes_on_waiting()
    ensures waiting { (start : Dictionary) (seen history : List Entry) → is_legal (start_of start) history ≡ true → HasSeen 0 seen history
        → waiting_after start history ≡ waiting_after start seen }
    ensures installed { (start : Dictionary) (seen history : List Entry) → is_legal (start_of start) history ≡ true → HasSeen 0 seen history
        → installed_after start history ≡ installed_after start seen }
    ensures merge { (start : Dictionary) (seen history : List Entry) (number : ℕ) (rows : List Row) → is_legal (start_of start) history ≡ true
        → HasSeen 0 seen history → IsMerge start seen number rows → IsMerge start history number rows }
{}

/// A snapshot's layer over its base is the merge that may be installed; there is one number that waits, and one merge.
pub fn merges_of_snapshots()
    ensures merge { (start : Dictionary) (seen : List Entry) (rows : List Row) (layer : Waiting) → IsSnapshot start seen rows layer
        → IsMerge start seen layer.number (overlay rows layer.marks) }
    ensures number { (start : Dictionary) (seen : List Entry) (number other : ℕ) (rows others : List Row) → IsMerge start seen number rows
        → IsMerge start seen other others → number ≡ other }
    ensures rows { (start : Dictionary) (seen : List Entry) (number other : ℕ) (rows others : List Row) → IsMerge start seen number rows
        → IsMerge start seen other others → rows ≡ others }
{}

/// After some entries one thing is needed.
pub fn one_need()
    ensures { (start : Dictionary) (seen : List Entry) (need other : Need) → IsNeed start seen need → IsNeed start seen other → need ≡ other }
{}
