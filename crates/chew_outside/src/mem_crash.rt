ghost use Rattle.std.specs.Prelude.{◌≡◌, ℕ, ◌+◌, ◌≤◌, Bool, List, ◌∷◌, length, vec_len, IfOk, OnOk};
ghost use Rattle.chew_spec_disk.specs.Crash.{IsCrashOf, IsTearOf, with_marks};
ghost use Rattle.chew_spec_disk.specs.Memory as spec;
ghost use Rattle.chew_spec_disk.specs.Memory.{reads_after};
ghost use Rattle.chew_outside.specs.Events.{event_of, history_of};

use crate::mem_slot::{Event, paste};
use chew_syllable::NoMemory;
use std::alloc::Global;

/// The byte with which the crash of number 2 marks each byte that was written since the last sync.
const MARK: u8 = 0xA5;

/// What a crash after these events, the oldest first, leaves of a slot, picked by a number: 0 keeps all
/// writes, 1 loses those since the last sync, 2 marks their bytes, and any other mixes all that may come.
pub(crate) fn crashed(first: &Vec<u8>, events: &[Event], pick: u64) -> Result<Vec<u8>, NoMemory>
    ensures { IfOk result (λ list. IsCrashOf pick (record { first = first.now.items; events = history_of events.now }) list.items) }
{
    let alloc = *first.allocator();
    let mut reads = Vec::from_slice(alloc, first.as_slice())?;
    let mut left = Vec::from_slice(alloc, first.as_slice())?;
    'replaying: for event in events {
        replay(event, pick, &mut reads, &mut left)?;
    }
    Ok(left)
}

// One event more, for what reads give and for what the crash leaves.
fn replay(event: &Event, pick: u64, reads: &mut Vec<u8>, left: &mut Vec<u8>) -> Result<(), NoMemory>
    ensures reads { OnOk result ((first : List ℕ) (older : List spec.Event) → reads.old.items ≡ reads_after first older →
        reads.new.items ≡ reads_after first (event_of event.now ∷ older)) }
    ensures left { OnOk result ((first : List ℕ) (older : List spec.Event) → reads.old.items ≡ reads_after first older →
        IsCrashOf pick (record { first = first; events = older }) left.old.items →
        IsCrashOf pick (record { first = first; events = event_of event.now ∷ older }) left.new.items) }
{
    match event {
        Event::Written {
            at,
            bytes,
            done,
            ..
        } => {
            tear(pick, *at, bytes.as_slice(), *done, left)?;
            if *done {
                paste(reads, *at, bytes.as_slice())?;
            }
            Ok(())
        }
        Event::Synced { .. } => {
            *left = Vec::from_slice(*reads.allocator(), reads.as_slice())?;
            Ok(())
        }
    }
}

// What a crash makes of one write.
fn tear(pick: u64, at: u64, bytes: &[u8], done: bool, left: &mut Vec<u8>) -> Result<(), NoMemory>
    ensures { OnOk result (IsTearOf pick at bytes.now done left.old.items left.new.items) }
{
    match pick {
        0 => {
            if done {
                paste(left, at, bytes)?;
            }
            Ok(())
        }
        1 => Ok(()),
        2 => put_marks(at, bytes.len(), done, left),
        _ => {
            let mixed = mixture(*left.allocator(), pick, at, bytes)?;
            paste(left, at, mixed.as_slice())?;
            Ok(())
        }
    }
}

// Marks over a range; where the write failed the list is no longer than before.
fn put_marks(at: u64, count: usize, done: bool, left: &mut Vec<u8>) -> Result<(), NoMemory>
    ensures { OnOk result (left.new.items ≡ with_marks at count done left.old.items) }
{
    let len = left.len();
    let marks = vec![in *left.allocator(); MARK; count]?;
    paste(left, at, marks.as_slice())?;
    if !done {
        left.truncate(len);
    }
    Ok(())
}

// A front of the range, in which each byte is the one that was written, a mark or its complement, by the
// digits of a number that is drawn from the pick and the place.
fn mixture(alloc: Global, pick: u64, at: u64, bytes: &[u8]) -> Result<Vec<u8>, NoMemory>
    ensures { IfOk result (λ mixed. vec_len mixed ≤ length bytes.now) }
{
    let mut draw = pick
        .wrapping_mul(6_364_136_223_846_793_005)
        .wrapping_add(at);
    let mut mixed = Vec::new(alloc);
    'mixing: for byte in bytes {
        draw = draw
            .wrapping_mul(6_364_136_223_846_793_005)
            .wrapping_add(1_442_695_040_888_963_407);
        match (draw >> 33) % 8 {
            0..=3 => mixed.push(*byte)?,
            4..=5 => mixed.push(MARK)?,
            6 => mixed.push(!*byte)?,
            _ => {
                if (draw >> 40) % 4 == 0 {
                    return Ok(mixed);
                }
                mixed.push(0)?;
            }
        }
    }
    Ok(mixed)
}
