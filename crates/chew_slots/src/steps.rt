ghost use Rattle.std.specs.Prelude.{◌≡◌, ◌⊎◌, ℕ, ◌+◌, ◌-◌, ◌^◌, ◌<◌, Bool, true, false, is_err, if◌then◌else◌, IfErr, IsOk, MatchResult, OnOk, OnErr};
ghost use Rattle.chew_spec_outside.specs.Faults.{HasCause};
ghost use Rattle.chew_spec_disk.specs.Disk.{IsDisk, Later, last_moment};
ghost use Rattle.chew_spec_slots.specs.Fits.{Fits, IsFilled};
ghost use Rattle.chew_spec_slots.specs.Keep.{advanced, is_shut, with_shut};
ghost use Rattle.chew_spec_slots.specs.Slot.{IsSaved, Saved, body as slot_body};
ghost use Rattle.chew_spec_slots.specs.Steps.{FillsBody, LiftsGate, ShutsGate};
ghost use Rattle.chew_slots.specs.Calls.{after_calls};

use crate::Keep;
use crate::fields::OPEN;
use chew_outside::Disk;

/// A device call failed in writing a checkpoint.
#[derive(Debug, Clone, Copy, PartialEq, Eq)]
pub struct StepFault {
    /// The call: 1 the write of the shut gate, 2 its sync, 3 the write of the body, 4 its sync, 5 the write of the open
    /// gate, 6 its sync.
    pub step: u8,
}

/// The byte of a shut gate.
const SHUT: u8 = 0;

impl Keep {
    /// Shuts the target's gate, unless it is surely shut; then no device call is made.
    pub fn close_gate<D: Disk>(&mut self, disk: &mut D) -> Result<(), StepFault>
        ensures told { D.told disk.new ≡ D.told disk.old }
        ensures ok { OnOk result (self.new ≡ with_shut self.old self.old.target true) }
        ensures err { OnErr result (self.new ≡ self.old) }
        ensures step { IfErr result (λ fault. (fault.step ≡ 1) ⊎ (fault.step ≡ 2)) }
        ensures unsure { OnErr result (is_shut self.old self.old.target ≡ false) }
        ensures cause { HasCause (D.faults disk.old) (D.faults disk.new) (is_err result) }
        ensures shut { OnOk result (is_shut self.new self.new.target ≡ true) }
        ensures calls { D.told disk.old ≡ true → MatchResult result
            (λ _. (D.state disk.new).moment ≡ (if is_shut self.old self.old.target then (D.state disk.old).moment else after_calls 2 (D.state disk.old).moment))
            (λ fault. (D.state disk.new).moment ≡ after_calls fault.step (D.state disk.old).moment) }
        ensures later { D.told disk.old ≡ true → Later (D.state disk.old) (D.state disk.new) }
        ensures is_disk { D.told disk.old ≡ true → IsDisk (D.state disk.old) → IsDisk (D.state disk.new) }
        ensures shuts { D.told disk.old ≡ true → Fits self.old (D.state disk.old) →
            ShutsGate self.old (D.state disk.old) self.new (D.state disk.new) result }
    {
        if self.is_shut() {
            return Ok(());
        }
        let slot = self.target();
        if disk.write_at(slot, 0, &[SHUT]).is_err() {
            return Err(StepFault { step: 1 });
        }
        if disk.sync(slot).is_err() {
            return Err(StepFault { step: 2 });
        }
        self.set_shut(true);
        Ok(())
    }

    /// Writes the body behind the target's shut gate. It takes a body for the number behind the acknowledged one.
    pub fn fill<D: Disk>(&mut self, disk: &mut D, body: &[u8]) -> Result<(), StepFault>
        requires shut { is_shut self.old self.old.target ≡ true }
        requires body { (saved : Saved) × IsSaved saved × (saved.seq ≡ self.old.seq + 1) × (body.now ≡ slot_body saved) }
        ensures told { D.told disk.new ≡ D.told disk.old }
        ensures same { self.new ≡ self.old }
        ensures step { IfErr result (λ fault. (fault.step ≡ 3) ⊎ (fault.step ≡ 4)) }
        ensures cause { HasCause (D.faults disk.old) (D.faults disk.new) (is_err result) }
        ensures calls { D.told disk.old ≡ true → MatchResult result
            (λ _. (D.state disk.new).moment ≡ after_calls 2 (D.state disk.old).moment)
            (λ fault. (D.state disk.new).moment ≡ after_calls (fault.step - 2) (D.state disk.old).moment) }
        ensures later { D.told disk.old ≡ true → Later (D.state disk.old) (D.state disk.new) }
        ensures is_disk { D.told disk.old ≡ true → IsDisk (D.state disk.old) → IsDisk (D.state disk.new) }
        ensures fills { (saved : Saved) → IsSaved saved → saved.seq ≡ self.old.seq + 1 → body.now ≡ slot_body saved →
            D.told disk.old ≡ true → Fits self.old (D.state disk.old) →
            FillsBody self.old (D.state disk.old) (D.state disk.new) saved result }
    {
        let target = self.target();
        if disk.write_at(target, 1, body).is_err() {
            return Err(StepFault { step: 3 });
        }
        if disk.sync(target).is_err() {
            return Err(StepFault { step: 4 });
        }
        Ok(())
    }

    /// Opens the target's gate over a body that was filled, which is then the acknowledged checkpoint.
    pub fn lift_gate<D: Disk>(&mut self, disk: &mut D) -> Result<(), StepFault>
        requires { self.old.seq + 1 < 2 ^ 64 }
        ensures told { D.told disk.new ≡ D.told disk.old }
        ensures ok { OnOk result (self.new ≡ advanced self.old) }
        ensures err { OnErr result (self.new ≡ with_shut self.old self.old.target false) }
        ensures step { IfErr result (λ fault. (fault.step ≡ 5) ⊎ (fault.step ≡ 6)) }
        ensures cause { HasCause (D.faults disk.old) (D.faults disk.new) (is_err result) }
        ensures calls { D.told disk.old ≡ true → MatchResult result
            (λ _. (D.state disk.new).moment ≡ after_calls 2 (D.state disk.old).moment)
            (λ fault. (D.state disk.new).moment ≡ after_calls (fault.step - 4) (D.state disk.old).moment) }
        ensures later { D.told disk.old ≡ true → Later (D.state disk.old) (D.state disk.new) }
        ensures is_disk { D.told disk.old ≡ true → IsDisk (D.state disk.old) → IsDisk (D.state disk.new) }
        ensures lifts { (saved : Saved) → D.told disk.old ≡ true → Fits self.old (D.state disk.old) →
            IsFilled self.old (D.state disk.old) saved →
            LiftsGate self.old (D.state disk.old) self.new (D.state disk.new) saved result }
    {
        self.set_shut(false);
        let lifted = self.target();
        if disk.write_at(lifted, 0, &[OPEN]).is_err() {
            return Err(StepFault { step: 5 });
        }
        if disk.sync(lifted).is_err() {
            return Err(StepFault { step: 6 });
        }
        self.advance();
        Ok(())
    }
}
