//! No crash leaves a slot open and damaged, where what is known of the slots fits the disk.

ghost use Rattle.std.specs.Prelude.{◌≡◌, ◌≢◌, ℕ, None, List, drop, slice_index};
ghost use Rattle.chew_spec_disk.specs.Disk.{DiskState, IsDisk};
ghost use Rattle.chew_spec_disk.specs.Moments.{NowLeaves, NowMayLeave};
ghost use Rattle.chew_spec_disk.specs.Sync.{IsSettled};
ghost use Rattle.chew_spec_slots.specs.Fits.{Fits, IsBehindGate, RecoversTo, RecoversToOld, RecoversToOldOrLeft};
ghost use Rattle.chew_spec_slots.specs.Keep.{Keep, acknowledged_state, found_keep, left_state};
ghost use Rattle.chew_spec_slots.specs.Reading.{Shut, slot_reading};
ghost use Rattle.chew_spec_slots.specs.Recovery.{Recovered, recovered};
ghost use Rattle.chew_spec_slots.specs.Slot.{Checkpoint};

/// Any disk, of which a law speaks.
pub trait AnyDisk {
    ghost disk: { DiskState };
}

/// Whatever a crash leaves recovers to the acknowledged state or to the one that a failed checkpoint left, never to a
/// refusal; to the acknowledged one alone where none was left, and some list that may be left does.
pub fn no_crash_harms<D: AnyDisk>()
    ensures recovers { (keep : Keep) → Fits keep D.disk → NowLeaves D.disk (RecoversToOldOrLeft keep D.disk) }
    ensures alone { (keep : Keep) → Fits keep D.disk → left_state keep D.disk ≡ None → NowLeaves D.disk (RecoversToOld keep D.disk) }
    ensures chance { (keep : Keep) → Fits keep D.disk → NowMayLeave D.disk (RecoversToOld keep D.disk) }
{}

/// A body that is torn in any way behind a shut gate is not read.
pub fn torn_behind_a_gate()
    ensures { (list : List ℕ) → IsBehindGate list → slot_reading list ≡ Shut }
{}

/// What recovery knows of two slots of which neither is refused fits the disk that they were read from, where nothing
/// is pending. The acknowledged state is the one that was recovered, and no failed checkpoint left another.
pub fn found_slots_fit<D: AnyDisk>()
    ensures fits { (checkpoint : Checkpoint) → IsDisk D.disk → IsSettled D.disk 0 → IsSettled D.disk 1 →
        recovered (D.disk.reads 0) (D.disk.reads 1) ≡ Recovered checkpoint → Fits (found_keep (D.disk.reads 0) (D.disk.reads 1)) D.disk }
    ensures state { (checkpoint : Checkpoint) → IsDisk D.disk → IsSettled D.disk 0 → IsSettled D.disk 1 →
        recovered (D.disk.reads 0) (D.disk.reads 1) ≡ Recovered checkpoint
        → acknowledged_state (found_keep (D.disk.reads 0) (D.disk.reads 1)) D.disk ≡ checkpoint }
    ensures left { (checkpoint : Checkpoint) → IsDisk D.disk → IsSettled D.disk 0 → IsSettled D.disk 1 →
        recovered (D.disk.reads 0) (D.disk.reads 1) ≡ Recovered checkpoint → left_state (found_keep (D.disk.reads 0) (D.disk.reads 1)) D.disk ≡ None }
{}
