ghost use Rattle.std.specs.Prelude.{◌≡◌, ◌≢◌, ℕ, ◌<◌, ◌≤◌, Bool, true, false, List, [], ◌∷◌, map, None, length, is_err, IfOk};
ghost use Rattle.chew_spec_outside.specs.Faults.{HasCause, risen};
ghost use Rattle.chew_spec_outside.specs.Memory.{counted};
ghost use Rattle.chew_spec_disk.specs.Crash.{IsCrashOf};
ghost use Rattle.chew_spec_disk.specs.Disk.{DiskState, IsDisk, Stays};
ghost use Rattle.chew_spec_disk.specs.Memory.{IsSound, MemoryDisk, MemoryWrites, after_sync, called, disk_state, fails_next, history_of, new_disk};
ghost use Rattle.chew_spec_disk.specs.Reads.{ReadsAt};
ghost use Rattle.chew_spec_disk.specs.Sync.{SyncAnswers};
ghost use Rattle.chew_spec_disk.specs.Write.{WriteAnswers};

use crate::mem_slot::MemSlot;
use crate::{Disk, Failed, Fails};
use chew_syllable::NoMemory;
use std::marker::Model;

/// A disk in memory, which fails where it is told to and tells what a crash might have left: it keeps
/// each write and sync.
#[derive(Drop)]
pub struct MemDisk {
    zero: MemSlot,
    one: MemSlot,
    fails: Fails,
    calls: u64,
    faults: u64,
    refused: u64,
}

impl Model for MemDisk {
    ghost use Rattle.chew_spec_disk.specs.Memory.{IsUpTo, MemoryDisk};

    ghost Value = { MemoryDisk };

    ghost view = { λ a. record {
      zero = a.zero;
      one = a.one;
      fails = a.fails;
      calls = a.calls;
      faults = a.faults;
      refused = a.refused;
    } };

    ghost invariant = { λ a. IsUpTo a.calls a.zero.events × IsUpTo a.calls a.one.events };
}

impl MemDisk {
    /// The slots hold these bytes, of which nothing can be lost.
    pub fn of(slots: [Vec<u8>; 2], fails: Fails) -> MemDisk
        ensures { (zero one : List ℕ) → map (λ slot. slot.items) slots ≡ zero ∷ one ∷ [] → result ≡ new_disk zero one fails }
    {
        let [zero, one] = slots;
        MemDisk::of_slots(MemSlot::of(zero), MemSlot::of(one), fails)
    }

    fn of_slots(zero: MemSlot, one: MemSlot, fails: Fails) -> MemDisk
        requires zero { zero.events ≡ [] }
        requires one { one.events ≡ [] }
        ensures { result ≡ new_disk zero.first one.first fails }
    {
        MemDisk {
            zero,
            one,
            fails,
            calls: 0,
            faults: 0,
            refused: 0,
        }
    }

    /// How many writes failed because memory for them was refused, up to 2^64-1.
    pub fn refused(&self) -> u64
        ensures { result ≡ self.now.refused }
    {
        self.refused
    }

    /// A disk that a crash now may leave, with nothing pending and no faults. Number 0 keeps all writes, 1
    /// loses those since each slot's last sync that was done, 2 keeps them and marks each of their bytes
    /// with 0xA5, and every other number picks a mixture of all that may be left.
    pub fn crashed(&self, pick: u64) -> Result<MemDisk, NoMemory>
        ensures zero { IfOk result (λ disk. IsCrashOf pick self.now.zero disk.zero.first) }
        ensures one { IfOk result (λ disk. IsCrashOf pick self.now.one disk.one.first) }
        ensures new { IfOk result (λ disk. disk ≡ new_disk disk.zero.first disk.one.first (record { at = []; from = None })) }
    {
        let zero = self.zero.crashed(pick)?;
        let one = self.one.crashed(pick)?;
        let fails = Fails::never(*zero.allocator());
        Ok(MemDisk::of_slots(MemSlot::of(zero), MemSlot::of(one), fails))
    }

    // Counts a call, and tells whether it fails.
    fn call(&mut self) -> bool
        ensures sound { IsSound self.old }
        ensures fails { result ≡ fails_next self.old }
        ensures called { self.new ≡ called result false self.old }
    {
        self.calls = self.calls.saturating_add(1);
        let fails = self.fails.names(self.calls);
        if fails {
            self.faults = self.faults.saturating_add(1);
        }
        fails
    }

    fn slot(&self, slot: u8) -> &MemSlot
        requires { slot < 2 }
        ensures { result.now ≡ history_of self.now slot }
    {
        match slot {
            0 => &self.zero,
            _ => &self.one,
        }
    }

    // Makes a write.
    fn write(&mut self, slot: u8, at: u64, bytes: &[u8]) -> Result<(), Failed>
        requires { slot < 2 }
        ensures sound { IsSound self.old }
        ensures writes { MemoryWrites slot at bytes.now self.old self.new (is_err result) }
        ensures faults { self.new.faults ≡ counted (is_err result) self.old.faults }
    {
        let fails = self.call();
        let kept = match slot {
            0 => self.zero.write(self.calls, at, bytes, !fails),
            _ => self.one.write(self.calls, at, bytes, !fails),
        };
        if kept.is_err() {
            if !fails {
                self.faults = self.faults.saturating_add(1);
            }
            self.refused = self.refused.saturating_add(1);
            return Err(Failed);
        }
        if fails { Err(Failed) } else { Ok(()) }
    }

    // Makes a sync.
    fn sync_slot(&mut self, slot: u8) -> Result<(), Failed>
        requires { slot < 2 }
        ensures sound { IsSound self.old }
        ensures named { is_err result ≡ fails_next self.old }
        ensures synced { self.new ≡ after_sync self.old slot }
    {
        if self.call() {
            return Err(Failed);
        }
        match slot {
            0 => self.zero.sync(self.calls),
            _ => self.one.sync(self.calls),
        }
        Ok(())
    }
}

#[tactic(auto, using(chew_spec_disk::proofs::Histories::memory_is_disk))]
impl Disk for MemDisk {
    ghost told = { λ disk. true };

    ghost state = { disk_state };

    ghost faults = { λ disk. disk.faults };

    /// Fails exactly where its number is named.
    fn length(&mut self, slot: u8) -> Result<u64, Failed>
        requires { slot < 2 }
        ensures told { true ≡ true }
        ensures is_disk { true ≡ true → IsDisk (disk_state self.new) }
        ensures ok { true ≡ true → IfOk result (λ n. n ≡ length ((disk_state self.old).reads slot)) }
        ensures stays { true ≡ true → Stays (disk_state self.old) (disk_state self.new) }
        ensures cause { HasCause self.old.faults self.new.faults (is_err result) }
        ensures named { is_err result ≡ fails_next self.old }
        ensures called { self.new ≡ called (is_err result) false self.old }
    {
        if self.call() {
            return Err(Failed);
        }
        Ok(self.slot(slot).bytes().len() as u64)
    }

    /// Fails exactly where its number is named.
    fn read_at(&mut self, slot: u8, at: u64, into: &mut [u8]) -> Result<usize, Failed>
        requires { slot < 2 }
        ensures told { true ≡ true }
        ensures is_disk { true ≡ true → IsDisk (disk_state self.new) }
        ensures fits { IfOk result (λ n. n ≤ length into.old) }
        ensures ok { true ≡ true → IfOk result (λ n. ReadsAt ((disk_state self.old).reads slot) at into.old into.new n) }
        ensures stays { true ≡ true → Stays (disk_state self.old) (disk_state self.new) }
        ensures cause { HasCause self.old.faults self.new.faults (is_err result) }
        ensures named { is_err result ≡ fails_next self.old }
        ensures called { self.new ≡ called (is_err result) false self.old }
    {
        if self.call() {
            return Err(Failed);
        }
        Ok(self.slot(slot).read(at, into))
    }

    /// Fails exactly where its number is named, or where memory is refused, which `refused` counts.
    /// Where it is named it may have been made in part; where memory is refused it changed nothing.
    fn write_at(&mut self, slot: u8, at: u64, bytes: &[u8]) -> Result<(), Failed>
        requires { slot < 2 }
        ensures told { true ≡ true }
        ensures is_disk { true ≡ true → IsDisk (disk_state self.new) }
        ensures answer { true ≡ true → WriteAnswers slot at bytes.now (disk_state self.old) (disk_state self.new) result }
        ensures cause { HasCause self.old.faults self.new.faults (is_err result) }
        ensures writes { MemoryWrites slot at bytes.now self.old self.new (is_err result) }
    {
        self.write(slot, at, bytes)
    }

    /// Fails exactly where its number is named, and takes no memory.
    fn sync(&mut self, slot: u8) -> Result<(), Failed>
        requires { slot < 2 }
        ensures told { true ≡ true }
        ensures is_disk { true ≡ true → IsDisk (disk_state self.new) }
        ensures answer { true ≡ true → SyncAnswers slot (disk_state self.old) (disk_state self.new) result }
        ensures cause { HasCause self.old.faults self.new.faults (is_err result) }
        ensures named { is_err result ≡ fails_next self.old }
        ensures synced { self.new ≡ after_sync self.old slot }
    {
        self.sync_slot(slot)
    }
}
