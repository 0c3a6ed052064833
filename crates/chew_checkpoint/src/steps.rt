ghost use Rattle.std.specs.Prelude.{◌≡◌, ◌+◌, ◌-◌, ◌^◌, ◌<◌, true, is_err, IfErr, MatchResult, OnOk};
ghost use Rattle.chew_spec_outside.specs.Faults.{HasCause};
ghost use Rattle.chew_spec_disk.specs.Disk.{IsDisk, Later};
ghost use Rattle.chew_spec_slots.specs.Fits.{Fits};
ghost use Rattle.chew_spec_slots.specs.Keep.{advanced, is_shut};
ghost use Rattle.chew_spec_slots.specs.Slot.{IsSaved, Saved, body as slot_body};
ghost use Rattle.chew_spec_rounds.specs.WriteSteps.{WritesCheckpoint};
ghost use Rattle.chew_slots.specs.Calls.{after_calls};
ghost use Rattle.chew_checkpoint.specs.Answers.{IsStep, kept_at, steps_up_to};

use chew_outside::Disk;
use chew_slots::{Keep, StepFault};

/// Writes a body for the next number, which then counts: the target's gate is shut, the body is filled behind it, and the gate
/// is lifted.
pub(crate) fn write_body<D: Disk>(
    keep: &mut Keep,
    disk: &mut D,
    body: &[u8],
) -> Result<(), StepFault>
    requires more { keep.old.seq + 1 < 2 ^ 64 }
    requires body { (saved : Saved) × IsSaved saved × (saved.seq ≡ keep.old.seq + 1) × (body.now ≡ slot_body saved) }
    ensures told { D.told disk.new ≡ D.told disk.old }
    ensures ok { OnOk result (keep.new ≡ advanced keep.old) }
    ensures err { IfErr result (λ fault. keep.new ≡ kept_at keep.old fault.step) }
    ensures step { IfErr result (λ fault. IsStep (is_shut keep.old keep.old.target) fault.step) }
    ensures cause { HasCause (D.faults disk.old) (D.faults disk.new) (is_err result) }
    ensures calls { D.told disk.old ≡ true → MatchResult result
        (λ _. (D.state disk.new).moment ≡ after_calls (steps_up_to (is_shut keep.old keep.old.target) 6) (D.state disk.old).moment)
        (λ fault. (D.state disk.new).moment ≡ after_calls (steps_up_to (is_shut keep.old keep.old.target) fault.step) (D.state disk.old).moment) }
    ensures later { D.told disk.old ≡ true → Later (D.state disk.old) (D.state disk.new) }
    ensures is_disk { D.told disk.old ≡ true → IsDisk (D.state disk.old) → IsDisk (D.state disk.new) }
    ensures writes { (saved : Saved) → IsSaved saved → saved.seq ≡ keep.old.seq + 1 → body.now ≡ slot_body saved →
        D.told disk.old ≡ true → Fits keep.old (D.state disk.old) →
        WritesCheckpoint keep.old (D.state disk.old) keep.new (D.state disk.new) saved result }
{
    keep.close_gate(disk)?;
    keep.fill(disk, body)?;
    keep.lift_gate(disk)
}
