//! What a crash at any moment of a run leaves.

ghost use Rattle.std.specs.Prelude.{◌≡◌, ℕ, List, [], MatchResult};
ghost use Rattle.chew_spec_disk.specs.Disk.{DiskState, IsDisk, Later};
ghost use Rattle.chew_spec_dictionary.specs.Dictionary.{Dictionary};
ghost use Rattle.chew_spec_dictionary.specs.History.{Entry};
ghost use Rattle.chew_spec_rounds.specs.Front.{RecoversToFront};
ghost use Rattle.chew_spec_rounds.specs.Round.{Round};
ghost use Rattle.chew_spec_rounds.specs.Session.{IsSession};
ghost use Rattle.chew_spec_disk.specs.Moments.{NowLeaves};
ghost use Rattle.chew_spec_program.specs.Crash.{IsKept};
ghost use Rattle.chew_spec_program.specs.Run.{Ended, IsRun, Outside};
ghost use Rattle.chew_spec_program.specs.Slots.{IsUnwritten};

/// What was seen outside over any run.
pub trait AnyOutside {
    ghost outside: { Outside };
}

/// A crash at any moment of any run, refused or not, leaves slots that recover to the plain map after a front of its history, which never
/// gets shorter; with status 0 they recover to the map after all of it. The history begins with what was recovered, and has no entry where
/// the run was refused.
pub fn every_run_is_kept<O: AnyOutside>()
    ensures { (words : List (List ℕ)) (ended : Ended) (start : Dictionary) → (run : IsRun words O.outside ended)
        → MatchResult run.opened (λ inputs. start ≡ inputs.basis.start.dictionary) (λ _. Unit {0})
        → IsKept start ended.journal ended.rounds ended.status O.outside.disk }
{}

/// Any disk as a run begins, once its slots were read, and now.
pub trait AnyDisks {
    ghost first: { DiskState };

    ghost before: { DiskState };

    ghost now: { DiskState };
}

/// What holds of a session from the moment that its slots were read holds from the moment that the run began.
pub fn sessions_begin_with_reads<D: AnyDisks>()
    ensures { (start : Dictionary) (history : List Entry) (rounds : List Round) → IsDisk D.first
        → NowLeaves D.first (RecoversToFront start [] 0) → IsUnwritten D.first D.before → Later D.before D.now
        → IsSession start history D.before.moment D.now rounds → IsSession start history D.first.moment D.now rounds }
{}
