//! Laws of calls that passes make.

ghost use Rattle.std.specs.Prelude.{◌≡◌, ◌+◌, ◌-◌, ◌≤◌, ◌++◌, List, [], ◌∷◌, length, Some};
ghost use Rattle.chew_spec_dictionary.specs.Call.{Call, Reply};
ghost use Rattle.chew_spec_dictionary.specs.Growth.{IsFront, Made, reply_at};
ghost use Rattle.chew_spec_dictionary.specs.History.{Entry, own, start_of};
ghost use Rattle.chew_spec_cell.specs.Pass.{Pass};
ghost use Rattle.chew_spec_shared.specs.SharedCalls.{Asked};

/// A call of a pass: its number made this one call and got this one reply, and its entries are those of before and this one. What
/// is seen begins with what was seen, has grown, and ends with the call, whose reply is that of the last place.
pub fn calls_asked()
    ensures made { (pass : Pass) (call : Call) (reply : Reply) (seen : List Entry) → Asked pass call reply seen
        → Made (start_of pass.cell.start) pass.seen seen pass.who (call ∷ []) (reply ∷ []) }
    ensures own { (pass : Pass) (call : Call) (reply : Reply) (seen : List Entry) → Asked pass call reply seen
        → own seen pass.who ≡ own pass.seen pass.who ++ record { who = pass.who; call = call } ∷ [] }
    ensures front { (pass : Pass) (call : Call) (reply : Reply) (seen : List Entry) → Asked pass call reply seen → IsFront pass.seen seen }
    ensures longer { (pass : Pass) (call : Call) (reply : Reply) (seen : List Entry) → Asked pass call reply seen
        → length pass.seen + 1 ≤ length seen }
    ensures last { (pass : Pass) (call : Call) (reply : Reply) (seen : List Entry) → Asked pass call reply seen
        → reply_at (start_of pass.cell.start) seen (length seen - 1) ≡ Some reply }
{}
