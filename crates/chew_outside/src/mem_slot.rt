ghost use Rattle.std.specs.Prelude.{◌≡◌, ℕ, Bool, true, false, [], IfOk, OnOk, OnErr};
ghost use Rattle.chew_spec_disk.specs.Crash.{IsCrashOf};
ghost use Rattle.chew_spec_disk.specs.Memory.{Written, reads_after, with_event, with_sync, written};
ghost use Rattle.chew_spec_disk.specs.Reads.{ReadsAt};
ghost use Rattle.chew_outside.specs.Events.{content};

use crate::mem_crash::crashed;
use chew_syllable::NoMemory;
use std::marker::Model;

/// A call that a slot keeps.
#[derive(Drop)]
pub(crate) enum Event {
    /// A write of bytes from a place on; one that is not done failed.
    Written {
        moment: u64,
        at: u64,
        bytes: Vec<u8>,
        done: bool,
    },
    /// A sync.
    Synced {
        moment: u64,
    },
}

/// A slot in memory: what it had at first, and each write and sync since.
#[derive(Drop)]
pub(crate) struct MemSlot {
    first: Vec<u8>,
    // What reads give; nothing where no write was done yet, and then it is what the slot had at first.
    current: Option<Vec<u8>>,
    // Where the newest is a write there is room for a sync, so that a sync takes no memory.
    events: Vec<Event>,
    is_unsynced: bool,
}

impl Model for MemSlot {
    ghost use Rattle.std.specs.Prelude.{◌≡◌, ◌<◌, ◌≤◌, true, length, vec_len};
    ghost use Rattle.std.specs.Vec.{vec_capacity};
    ghost use Rattle.chew_spec_disk.specs.Memory.{SlotHistory, is_written, reads_after};

    ghost Value = { SlotHistory };

    ghost use Rattle.chew_outside.specs.Events.{content, history_of};

    ghost view = { λ a. record { first = a.first.items; events = history_of a.events.items } };

    ghost invariant = { λ a.
        (content a.current a.first ≡ reads_after a.first.items (history_of a.events.items))
        × (a.is_unsynced ≡ is_written (history_of a.events.items))
        × (a.is_unsynced ≡ true → vec_len a.events < vec_capacity a.events) };
}

impl MemSlot {
    /// Nothing was written to it yet.
    pub(crate) fn of(first: Vec<u8>) -> MemSlot
        ensures { result ≡ record { first = first.items; events = [] } }
    {
        let events = Vec::new(*first.allocator());
        MemSlot {
            first,
            current: None,
            events,
            is_unsynced: false,
        }
    }

    /// What reads give.
    pub(crate) fn bytes(&self) -> &[u8]
        ensures { result.now ≡ reads_after self.now.first self.now.events }
    {
        match &self.current {
            Some(current) => current.as_slice(),
            None => self.first.as_slice(),
        }
    }

    /// Reads from a place on, up to the end or that of the buffer, and answers how many bytes.
    pub(crate) fn read(&self, at: u64, into: &mut [u8]) -> usize
        ensures { ReadsAt (reads_after self.now.first self.now.events) at into.old into.new result }
    {
        let bytes = self.bytes();
        let from = (at as usize).min(bytes.len());
        let rest = &bytes[from..];
        let count = into.len().min(rest.len());
        into[..count].copy_from_slice(&rest[..count]);
        count
    }

    /// Keeps a write, done or failed. Where memory is refused the slot is as before.
    pub(crate) fn write(
        &mut self,
        moment: u64,
        at: u64,
        bytes: &[u8],
        done: bool,
    ) -> Result<(), NoMemory>
        ensures ok { OnOk result (self.new ≡ with_event self.old (Written moment at bytes.now done)) }
        ensures err { OnErr result (self.new ≡ self.old) }
    {
        let copy = Vec::from_slice(*self.first.allocator(), bytes)?;
        self.events.reserve(2)?;
        if done {
            put(&mut self.current, &self.first, at, bytes)?;
        }
        self.events.push_reserved(Event::Written {
            moment,
            at,
            bytes: copy,
            done,
        });
        self.is_unsynced = true;
        Ok(())
    }

    /// What a crash leaves of it, picked by a number.
    pub(crate) fn crashed(&self, pick: u64) -> Result<Vec<u8>, NoMemory>
        ensures { IfOk result (λ list. IsCrashOf pick self.now list.items) }
    {
        crashed(&self.first, self.events.as_slice(), pick)
    }

    /// Keeps a sync, where the slot was written since the last one.
    pub(crate) fn sync(&mut self, moment: u64)
        ensures { self.new ≡ with_sync self.old moment }
    {
        if self.is_unsynced {
            self.events.push_reserved(Event::Synced { moment });
            self.is_unsynced = false;
        }
    }
}

// Writes the bytes from a place on to what reads give.
fn put(
    current: &mut Option<Vec<u8>>,
    first: &Vec<u8>,
    at: u64,
    bytes: &[u8],
) -> Result<(), NoMemory>
    ensures ok { OnOk result (content current.new first.now ≡ written at bytes.now (content current.old first.now)) }
    ensures err { OnErr result (content current.new first.now ≡ content current.old first.now) }
{
    match current {
        Some(list) => paste(list, at, bytes),
        None => {
            let mut copy = Vec::from_slice(*first.allocator(), first.as_slice())?;
            paste(&mut copy, at, bytes)?;
            *current = Some(copy);
            Ok(())
        }
    }
}

// Writes the bytes from a place on to the list, which gets zeros up to them where it ends before.
pub(crate) fn paste(list: &mut Vec<u8>, at: u64, bytes: &[u8]) -> Result<(), NoMemory>
    ensures ok { OnOk result (list.new.items ≡ written at bytes.now list.old.items) }
    ensures err { OnErr result (list.new.items ≡ list.old.items) }
{
    let from = at as usize;
    let Some(end) = from.checked_add(bytes.len()) else {
        return Err(NoMemory);
    };
    let len = list.len().max(end);
    list.resize(len, 0)?;
    list.as_mut_slice()[from..end].copy_from_slice(bytes);
    Ok(())
}
