//! Known rounds and sessions, and what comes near one and is none. The list of one row is the slot of 測試 learnt once, in
//! the first format; that with life 2 stands for another map.

ghost use Rattle.std.specs.Prelude.{◌≡◌, ℕ, true, false, List, [], ◌∷◌, Some, None};
ghost use Rattle.chew_spec_dictionary.specs.Call.{Freeze, Frozen, Install, Installed};
ghost use Rattle.chew_spec_dictionary.specs.History.{calls_of, is_legal, replies, start_of};
ghost use Rattle.chew_spec_slots.specs.Sample.{life_two, one_row_plain_slot, one_row_saved};
ghost use Rattle.chew_spec_slots.specs.Slot.{no_checkpoint};
ghost use Rattle.chew_spec_rounds.specs.Front.{IsNumber, front_checkpoint, shape_after};
ghost use Rattle.chew_spec_rounds.specs.Known.{by_keeper, disk_with, empty_disk, failed_once, learns, learnt_between, nothing, torn_disk};
ghost use Rattle.chew_spec_rounds.specs.LastRounds.{IsAllSaved};
ghost use Rattle.chew_spec_rounds.specs.Round.{AreKeepersCalls, DiskFault, IsRound, KeepersCalls, NoMemory, Saved, SeqSpent};
ghost use Rattle.chew_spec_rounds.specs.Session.{NeverShortens, last_saved};

/// A learn between a freeze and its install belongs to the next round: the rounds save 2 entries, and then 5.
pub fn a_learn_between()
    ensures legal { is_legal (start_of nothing) learnt_between ≡ true }
    ensures replies { replies (start_of nothing) learnt_between 0 ≡ Frozen 2 ∷ (Installed ∷ (Frozen 5 ∷ (Installed ∷ []))) }
    ensures shape { shape_after nothing learnt_between ≡ record { installed = 5; waiting = None } }
    ensures before { front_checkpoint nothing learnt_between 2 ≡ no_checkpoint }
    ensures whole { front_checkpoint nothing learnt_between 5 ≡ one_row_saved.checkpoint }
{}

/// A layer that a failed round left waits under its old number, also once the next round has frozen.
pub fn the_old_number()
    ensures legal { is_legal (start_of nothing) failed_once ≡ true }
    ensures replies { replies (start_of nothing) failed_once 0 ≡ Frozen 1 ∷ (Frozen 1 ∷ []) }
    ensures shape { shape_after nothing failed_once ≡ record { installed = 0; waiting = Some 1 } }
    ensures front { front_checkpoint nothing failed_once 1 ≡ one_row_saved.checkpoint }
{}

/// The numbers of that history are 0 and 1, and not the place of its second freeze.
pub fn known_numbers()
    ensures none { IsNumber nothing failed_once 0 }
    ensures frozen { IsNumber nothing failed_once 1 }
    ensures second_place { IsNumber nothing failed_once 3 → ⊥ }
{}

/// Nothing is left to save once the last round has saved all; something is where a snapshot waits, or where a pair was
/// changed since.
pub fn known_needs()
    ensures nothing_left { IsAllSaved nothing learnt_between }
    ensures waits { IsAllSaved nothing failed_once → ⊥ }
    ensures empty_waits { IsAllSaved nothing (by_keeper Freeze ∷ []) → ⊥ }
    ensures fresh { IsAllSaved nothing (learns ∷ []) → ⊥ }
{}

/// The keeper's calls by what a round answers.
pub fn calls_by_answer()
    ensures saved { KeepersCalls (Saved 2) (Freeze ∷ (Install 2 ∷ [])) }
    ensures other_number { KeepersCalls (Saved 2) (Freeze ∷ (Install 5 ∷ [])) → ⊥ }
    ensures not_installed { KeepersCalls (Saved 2) (Freeze ∷ []) → ⊥ }
    ensures fault { KeepersCalls (DiskFault 6) (Freeze ∷ []) }
    ensures installed_all_the_same { KeepersCalls (DiskFault 6) (Freeze ∷ (Install 2 ∷ [])) → ⊥ }
    ensures no_freeze { KeepersCalls (DiskFault 6) [] → ⊥ }
    ensures memory { KeepersCalls NoMemory [] }
    ensures memory_later { KeepersCalls NoMemory (Freeze ∷ []) }
    ensures spent { KeepersCalls (SeqSpent 1) [] }
    ensures spent_later { KeepersCalls (SeqSpent 1) (Freeze ∷ []) → ⊥ }
{}

/// The keeper's calls over two saved rounds, and over a failed one before a saved one; not in another order.
pub fn calls_over_rounds()
    ensures saved_twice { AreKeepersCalls (Saved 2 ∷ (Saved 5 ∷ [])) (calls_of learnt_between 0) }
    ensures failed_before { AreKeepersCalls (DiskFault 6 ∷ (Saved 1 ∷ [])) (Freeze ∷ (Freeze ∷ (Install 1 ∷ []))) }
    ensures nothing_more { AreKeepersCalls (SeqSpent 1 ∷ []) (Freeze ∷ []) → ⊥ }
{}

/// The number of the last round that saved any, over failed ones, and 0 without one.
pub fn last_saved_numbers()
    ensures none { last_saved 0 (DiskFault 6 ∷ (NoMemory ∷ [])) ≡ 0 }
    ensures over_failed { last_saved 0 (Saved 3 ∷ (DiskFault 1 ∷ [])) ≡ 3 }
    ensures last { last_saved 0 (Saved 3 ∷ (DiskFault 1 ∷ (Saved 7 ∷ []))) ≡ 7 }
{}

/// A round that saves one learn; and one whose last sync failed, so that recovery gives the old map or that with the learn.
/// The latter is no saved round. And a round leaves no map of a number that was neither acknowledged nor waits, as where a
/// failed round's layer took a new number.
pub fn known_rounds()
    ensures saved { IsRound nothing (learns ∷ []) (learns ∷ (by_keeper Freeze ∷ (by_keeper (Install 1) ∷ [])))
        (disk_with ([] ∷ []) 0) (disk_with ([] ∷ (one_row_plain_slot ∷ [])) 1) (Saved 1) }
    ensures failed { IsRound nothing (learns ∷ []) (learns ∷ (by_keeper Freeze ∷ [])) empty_disk (torn_disk one_row_plain_slot) (DiskFault 6) }
    ensures not_synced { IsRound nothing (learns ∷ []) (learns ∷ (by_keeper Freeze ∷ (by_keeper (Install 1) ∷ [])))
        empty_disk (torn_disk one_row_plain_slot) (Saved 1) → ⊥ }
    ensures new_number { IsRound nothing (learns ∷ (by_keeper Freeze ∷ (learns ∷ []))) failed_once
        (disk_with ([] ∷ []) 0) (disk_with ([] ∷ (life_two 1 ∷ [])) 1) (DiskFault 6) → ⊥ }
{}

/// Slots that lose the acknowledged map for a moment, as where a round writes into the slot that counts, shorten the front.
pub fn known_sessions()
    ensures kept { NeverShortens nothing (learns ∷ (by_keeper Freeze ∷ [])) 0 (disk_with ([] ∷ (one_row_plain_slot ∷ [])) 1) }
    ensures lost { NeverShortens nothing (learns ∷ (by_keeper Freeze ∷ [])) 0 (disk_with ([] ∷ (one_row_plain_slot ∷ ([] ∷ []))) 2) → ⊥ }
{}
