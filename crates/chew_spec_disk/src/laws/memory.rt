//! The disk in memory is a disk, and known histories of a slot.

ghost use Rattle.std.specs.Prelude.{◌≡◌, ℕ, Bool, true, false, List, [], ◌∷◌, Some, None};
ghost use Rattle.chew_spec_disk.specs.Disk.{IsDisk};
ghost use Rattle.chew_spec_disk.specs.Memory.{Event, IsLeftAfter, IsUpTo, MemoryDisk, Synced, Written, called, disk_state, events_at, events_until, is_written, new_disk, reads_after, with_sync, written};

/// What a disk in memory tells is what a disk tells.
pub fn memory_is_a_disk()
    ensures { (disk : MemoryDisk) → IsDisk (disk_state disk) }
{}

/// Known lists after a write in memory: in the middle, past the end, and with a gap, which gets zeros.
pub fn known_written()
    ensures middle { written 1 (9 ∷ []) (1 ∷ 2 ∷ 3 ∷ []) ≡ 1 ∷ 9 ∷ 3 ∷ [] }
    ensures past_end { written 2 (8 ∷ 9 ∷ []) (1 ∷ 2 ∷ 3 ∷ []) ≡ 1 ∷ 2 ∷ 8 ∷ 9 ∷ [] }
    ensures gap { written 3 (9 ∷ []) (1 ∷ []) ≡ 1 ∷ 0 ∷ 0 ∷ 9 ∷ [] }
    ensures nothing { written 1 [] (1 ∷ 2 ∷ []) ≡ 1 ∷ 2 ∷ [] }
{}

/// A slot that has 1, 2 at first, of which 9 is written over 2 at moment 3, done or failed, and then
/// synced at moment 4.
pub fn known_history()
    ensures new { reads_after (1 ∷ 2 ∷ []) [] ≡ 1 ∷ 2 ∷ [] }
    ensures new_left { IsLeftAfter (1 ∷ 2 ∷ []) [] (1 ∷ 9 ∷ []) → ⊥ }
    ensures done { reads_after (1 ∷ 2 ∷ []) (Written 3 1 (9 ∷ []) true ∷ []) ≡ 1 ∷ 9 ∷ [] }
    ensures done_lost { IsLeftAfter (1 ∷ 2 ∷ []) (Written 3 1 (9 ∷ []) true ∷ []) (1 ∷ 2 ∷ []) }
    ensures done_torn { IsLeftAfter (1 ∷ 2 ∷ []) (Written 3 1 (9 ∷ []) true ∷ []) (1 ∷ 7 ∷ []) }
    ensures done_elsewhere { IsLeftAfter (1 ∷ 2 ∷ []) (Written 3 1 (9 ∷ []) true ∷ []) (7 ∷ 9 ∷ []) → ⊥ }
    ensures failed { reads_after (1 ∷ 2 ∷ []) (Written 3 1 (9 ∷ []) false ∷ []) ≡ 1 ∷ 2 ∷ [] }
    ensures failed_torn { IsLeftAfter (1 ∷ 2 ∷ []) (Written 3 1 (9 ∷ []) false ∷ []) (1 ∷ 7 ∷ []) }
    ensures synced { IsLeftAfter (1 ∷ 2 ∷ []) (Synced 4 ∷ Written 3 1 (9 ∷ []) true ∷ []) (1 ∷ 9 ∷ []) }
    ensures synced_lost { IsLeftAfter (1 ∷ 2 ∷ []) (Synced 4 ∷ Written 3 1 (9 ∷ []) true ∷ []) (1 ∷ 2 ∷ []) → ⊥ }
    ensures synced_failed { IsLeftAfter (1 ∷ 2 ∷ []) (Synced 4 ∷ Written 3 1 (9 ∷ []) false ∷ []) (1 ∷ 9 ∷ []) → ⊥ }
{}

/// The events of that slot up to each moment, and whether it was written since its last sync.
pub fn known_events()
    ensures before { events_until 2 (Synced 4 ∷ Written 3 1 (9 ∷ []) true ∷ []) ≡ [] }
    ensures written { events_until 3 (Synced 4 ∷ Written 3 1 (9 ∷ []) true ∷ []) ≡ Written 3 1 (9 ∷ []) true ∷ [] }
    ensures synced { events_until 4 (Synced 4 ∷ Written 3 1 (9 ∷ []) true ∷ []) ≡ Synced 4 ∷ Written 3 1 (9 ∷ []) true ∷ [] }
    ensures is_new { is_written [] ≡ false }
    ensures is_written { is_written (Written 3 1 (9 ∷ []) false ∷ []) ≡ true }
    ensures is_synced { is_written (Synced 4 ∷ Written 3 1 (9 ∷ []) true ∷ []) ≡ false }
    ensures no_second_sync { with_sync (record { first = 1 ∷ []; events = Synced 4 ∷ [] }) 5 ≡ record { first = 1 ∷ []; events = Synced 4 ∷ [] } }
    ensures in_time { IsUpTo 4 (Synced 4 ∷ []) }
    ensures too_late { IsUpTo 3 (Synced 4 ∷ []) → ⊥ }
{}
