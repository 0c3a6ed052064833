//! Writing a checkpoint by its three steps, each of which may fail.

ghost use Rattle.std.specs.Prelude.{◌≡◌, ℕ, Ok, Err};
ghost use Rattle.chew_spec_outside.specs.Faults.{risen};
ghost use Rattle.chew_spec_disk.specs.Disk.{DiskState, Later};
ghost use Rattle.chew_spec_slots.specs.Keep.{Keep};
ghost use Rattle.chew_spec_slots.specs.Slot.{Saved};
ghost use Rattle.chew_spec_slots.specs.Steps.{FillsBody, LiftsGate, ShutsGate};
ghost use Rattle.chew_spec_rounds.specs.WriteSteps.{WritesCheckpoint};

/// Any disk before a checkpoint is written, once the gate is shut, once the body is filled, and once the gate is lifted.
pub trait AnySteps {
    ghost before: { DiskState };

    ghost shut: { DiskState };

    ghost filled: { DiskState };

    ghost lifted: { DiskState };
}

/// Writing ends at the first step that fails, or with all three done.
pub fn writing_by_steps<S: AnySteps, T, E, F>()
    ensures shutting_fails { (keep keep_shut : Keep) (saved : Saved) (fault : E) (failed : F) → Later S.before S.shut
        → ShutsGate {T = T} keep S.before keep_shut S.shut (Err fault) → WritesCheckpoint {T = T} keep S.before keep_shut S.shut saved (Err failed) }
    ensures filling_fails { (keep keep_shut : Keep) (saved : Saved) (done : T) (fault : E) (failed : F) → Later S.before S.shut → Later S.shut S.filled
        → ShutsGate {E = E} keep S.before keep_shut S.shut (Ok done) → FillsBody {T = T} keep_shut S.shut S.filled saved (Err fault)
        → WritesCheckpoint {T = T} keep S.before keep_shut S.filled saved (Err failed) }
    ensures lifting_fails { (keep keep_shut keep_lifted : Keep) (saved : Saved) (done : T) (fault : E) (failed : F)
        → Later S.before S.shut → Later S.shut S.filled → Later S.filled S.lifted
        → ShutsGate {E = E} keep S.before keep_shut S.shut (Ok done) → FillsBody {E = E} keep_shut S.shut S.filled saved (Ok done)
        → LiftsGate {T = T} keep_shut S.filled keep_lifted S.lifted saved (Err fault)
        → WritesCheckpoint {T = T} keep S.before keep_lifted S.lifted saved (Err failed) }
    ensures done { (keep keep_shut keep_lifted : Keep) (saved : Saved) (done : T)
        → Later S.before S.shut → Later S.shut S.filled → Later S.filled S.lifted → S.lifted.moment ≡ risen (risen S.filled.moment)
        → ShutsGate {E = E} keep S.before keep_shut S.shut (Ok done) → FillsBody {E = E} keep_shut S.shut S.filled saved (Ok done)
        → LiftsGate {E = E} keep_shut S.filled keep_lifted S.lifted saved (Ok done)
        → WritesCheckpoint {E = F} keep S.before keep_lifted S.lifted saved (Ok done) }
{}
