//! Known values, worked out by hand: 測試 is learnt with 9318, looked up, frozen, forgotten and installed.

ghost use Rattle.std.specs.Prelude.{ℕ, [], ◌∷◌, false};
ghost use Rattle.chew_spec_dictionary.specs.Call.{Forget, Freeze, Forgot, Frozen, Install, Installed, Learned, Look, Rows};
ghost use Rattle.chew_spec_dictionary.specs.Known.{by, ce_shi_key, hit, learn_test, row_with, test};
ghost use Rattle.chew_spec_layers.specs.Need.{Fresh, Nothing, Waiting};
ghost use Rattle.chew_spec_cell.specs.Pass.{Cell};
ghost use Rattle.chew_spec_shared.specs.SharedCalls.{Asked};
ghost use Rattle.chew_spec_shared.specs.Known.{layer_of_test, nothing, pass_with, up_to_forget, up_to_freeze, up_to_install, up_to_look};
ghost use Rattle.chew_spec_shared.specs.Needs.{IsNeed};
ghost use Rattle.chew_spec_shared.specs.Snapshot.{IsMerge, IsSnapshot};

/// The first learn is answered at time 0; a look-up behind it, by a pass that had seen nothing, finds it; the freeze behind both
/// answers 2; and a look-up of its own state before the turn would find nothing.
pub fn known_calls()
    ensures learn { (cell : Cell) → Asked (pass_with cell 1 []) learn_test (Learned 9318 0) (by 1 learn_test ∷ []) }
    ensures look { (cell : Cell) → Asked (pass_with cell 2 []) (Look ce_shi_key) (Rows (hit 0 2 test 9318 false ∷ [])) up_to_look }
    ensures stale { (cell : Cell) → Asked (pass_with cell 2 []) (Look ce_shi_key) (Rows []) up_to_look → ⊥ }
    ensures freeze { (cell : Cell) → Asked (pass_with cell 0 []) Freeze (Frozen 2) up_to_freeze }
    ensures forget { (cell : Cell) → Asked (pass_with cell 1 (by 1 learn_test ∷ [])) (Forget ce_shi_key test) Forgot up_to_forget }
    ensures twice { (cell : Cell) → Asked (pass_with cell 1 []) (Forget ce_shi_key test) Forgot up_to_forget → ⊥ }
    ensures install { (cell : Cell) → Asked (pass_with cell 0 up_to_freeze) (Install 2) Installed up_to_install }
{}

/// The snapshot of the freeze: nothing below a mark of 測試, with the number 2 and the life 1, also once it is forgotten. Its merge
/// has one row, and no other is.
pub fn known_snapshots()
    ensures freeze { IsSnapshot nothing up_to_freeze [] layer_of_test }
    ensures forget { IsSnapshot nothing up_to_forget [] layer_of_test }
    ensures unmarked { IsSnapshot nothing up_to_freeze [] (record { marks = []; number = 2; life = 1 }) → ⊥ }
    ensures merge { IsMerge nothing up_to_forget 2 (row_with ce_shi_key test 9318 0 ∷ []) }
    ensures empty { IsMerge nothing up_to_forget 2 [] → ⊥ }
    ensures installed { (number : ℕ) → IsMerge nothing up_to_install number [] → ⊥ }
{}

/// What is needed: nothing at first, fresh marks frozen after the learn, what waits installed after the freeze and the forget, and
/// after the install the grave frozen.
pub fn known_needs()
    ensures first { IsNeed nothing [] Nothing }
    ensures look { IsNeed nothing up_to_look Fresh }
    ensures freeze { IsNeed nothing up_to_freeze Waiting }
    ensures forget { IsNeed nothing up_to_forget Waiting }
    ensures install { IsNeed nothing up_to_install Fresh }
{}
