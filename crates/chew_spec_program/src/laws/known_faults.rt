//! Known runs that something outside disturbs, and known disks.

ghost use Rattle.std.specs.Prelude.{◌∷◌, ◌++◌, [], codes, false};
ghost use Rattle.chew_spec_dictionary.specs.Dictionary.{Dictionary};
ghost use Rattle.chew_spec_text.specs.Line.{with_line_feed};
ghost use Rattle.chew_spec_rounds.specs.Known.{nothing};
ghost use Rattle.chew_spec_program.specs.Crash.{BeginsWith, IsWholeOnDisk};
ghost use Rattle.chew_spec_program.specs.Run.{IsRun};
ghost use Rattle.chew_spec_program.specs.Sample.{run_words};
ghost use Rattle.chew_spec_program.specs.SampleFaults.{cut_disk, failed_end, failing_system, gate_disk, last_disk, over_disk, refused_end, spent_end};
ghost use Rattle.chew_spec_program.specs.SampleRun.{five_disk, five_journal, without_round};
ghost use Rattle.chew_spec_program.specs.Slots.{IsUncalled, IsUnwritten};

/// A source whose first read fails and a damaged slot refuse a run, each with its own status. A disk that fails in a last
/// round, and a last round that finds the seq spent, are told behind the context's lines.
pub fn known_faults()
    ensures source { IsRun run_words (failing_system (with_line_feed (codes "source"))) (refused_end 7) }
    ensures slot { IsRun run_words (over_disk cut_disk (with_line_feed (codes "slot 0 damaged 60"))) (refused_end 6) }
    ensures wrong_status { IsRun run_words (over_disk cut_disk (with_line_feed (codes "slot 0 damaged 60"))) (refused_end 5) → ⊥ }
    ensures disk { IsRun run_words (over_disk gate_disk (without_round ++ with_line_feed (codes "round 1 disk fault 2"))) failed_end }
    ensures spent { IsRun run_words (over_disk last_disk (without_round ++ with_line_feed (codes "round 1 seq spent"))) spent_end }
{}

/// A disk that holds nothing at first and 測試 then was called and written, and recovery gives the whole history on it; one on which the gate
/// alone was written doesn't. The premises of what is said of crashes hold of the former, and not of a disk that tells nothing, nor of one
/// with a damaged slot.
pub fn known_disks()
    ensures begins { BeginsWith nothing five_disk }
    ensures whole { IsWholeOnDisk nothing five_journal five_disk }
    ensures not_saved { IsWholeOnDisk nothing five_journal gate_disk → ⊥ }
    ensures called { IsUncalled five_disk → ⊥ }
    ensures written { IsUnwritten five_disk.before five_disk.now → ⊥ }
    ensures untold { BeginsWith nothing (record five_disk { told = false }) → ⊥ }
    ensures damaged { (start : Dictionary) → BeginsWith start cut_disk → ⊥ }
{}
