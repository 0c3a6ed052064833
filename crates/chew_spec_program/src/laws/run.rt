//! Laws of a run: what its status says.

ghost use Rattle.std.specs.Prelude.{◌≡◌, ◌≢◌, ◌⊎◌, ◌↔◌, ℕ, ◌+◌, ◌-◌, ◌^◌, ◌≤◌, Bool, List, [], ◌∷◌, All, Contains, IsTrue, drop, false, flat_map, is_some, length, map, take, true, Option, Some, Ok, Err};
ghost use Rattle.std.specs.List.{list_any};
ghost use Rattle.chew_spec_outside.specs.Faults.{Rose};
ghost use Rattle.chew_spec_outside.specs.Sink.{appended};
ghost use Rattle.chew_spec_dictionary.specs.Growth.{IsFront};
ghost use Rattle.chew_spec_dictionary.specs.History.{Entry, is_legal};
ghost use Rattle.chew_spec_text.specs.DictionaryText.{system_limit};
ghost use Rattle.chew_spec_text.specs.Line.{Line, line_text};
ghost use Rattle.chew_spec_text.specs.Script.{script_limit};
ghost use Rattle.chew_spec_settings.specs.SettingsText.{settings_limit};
ghost use Rattle.chew_spec_rounds.specs.Round.{DiskFault, NoMemory, Saved, SeqSpent, saved_number};
ghost use Rattle.chew_spec_session.specs.Context.{HandleAll};
ghost use Rattle.chew_spec_session.specs.LastRounds.{AreRounds, disk_faults, is_disk_fault};
ghost use Rattle.chew_spec_session.specs.Session.{CountFrom, RoseBy};
ghost use Rattle.chew_spec_program.specs.Command.{asks_trace, is_run_command};
ghost use Rattle.chew_spec_program.specs.Opening.{Inputs, opening};
ghost use Rattle.chew_spec_program.specs.Output.{output, traced};
ghost use Rattle.chew_spec_program.specs.Reading.{IsCalm};
ghost use Rattle.chew_spec_program.specs.Refusal.{DiskFailed, Refusal, refusal_line, refusal_status};
ghost use Rattle.chew_spec_program.specs.Run.{Ended, IsDone, IsRun, IsWhole, Outside, done_status, is_spent};
ghost use Rattle.chew_spec_program.specs.Slots.{IsUnwritten, slots_of};
ghost use Rattle.chew_spec_program.specs.Writing.{Sunk};

/// What was seen outside over any run.
pub trait AnyOutside {
    ghost outside: { Outside };
}

/// The statuses of a run: 2 exactly where the words have no form of a run, 7 only where a source's count of faults rose, 8 only where
/// the sink's did, and 9 only where the disk's did.
pub fn statuses_of_runs<O: AnyOutside>()
    ensures all { (words : List (List ℕ)) (ended : Ended) → IsRun words O.outside ended
        → Contains (0 ∷ (2 ∷ (3 ∷ (4 ∷ (5 ∷ (6 ∷ (7 ∷ (8 ∷ (9 ∷ (10 ∷ (11 ∷ []))))))))))) ended.status }
    ensures words { (words : List (List ℕ)) (ended : Ended) → IsRun words O.outside ended → (ended.status ≡ 2) ↔ (is_run_command words ≡ false) }
    ensures source { (words : List (List ℕ)) (ended : Ended) → IsRun words O.outside ended → ended.status ≡ 7
        → Rose O.outside.settings.faults_before O.outside.settings.faults_now
        ⊎ (Rose O.outside.system.faults_before O.outside.system.faults_now ⊎ Rose O.outside.script.faults_before O.outside.script.faults_now) }
    ensures sink { (words : List (List ℕ)) (ended : Ended) → IsRun words O.outside ended → ended.status ≡ 8
        → Rose O.outside.sink.faults_before O.outside.sink.faults_now }
    ensures disk { (words : List (List ℕ)) (ended : Ended) → IsRun words O.outside ended → ended.status ≡ 9
        → Rose O.outside.disk.faults_before O.outside.disk.faults_now }
{}

/// The status of a run that is not refused: 8 where the sink failed, before want of memory; this before a fault of the disk in a last
/// round; and this before a last round that found the seq spent.
pub fn known_statuses()
    ensures whole { done_status false false (Saved 3 ∷ (Saved 5 ∷ [])) ≡ 0 }
    ensures no_round { done_status false false [] ≡ 0 }
    ensures sink { done_status true false [] ≡ 8 }
    ensures sink_first { done_status true true (DiskFault 2 ∷ []) ≡ 8 }
    ensures memory { done_status false true [] ≡ 10 }
    ensures memory_first { done_status false true (DiskFault 2 ∷ []) ≡ 10 }
    ensures disk { done_status false false (Saved 3 ∷ (DiskFault 2 ∷ [])) ≡ 9 }
    ensures disk_first { done_status false false (SeqSpent 1 ∷ (DiskFault 2 ∷ [])) ≡ 9 }
    ensures spent { done_status false false (SeqSpent 18_446_744_073_709_551_615 ∷ []) ≡ 11 }
{}

/// A run that is not refused ends with 9 only where the disk failed in a last round, with 11 only where a last round found the seq
/// spent, and with none of 2 to 7. Where it did all that it does, it ends with 0, or with 8 or 10.
pub fn statuses_after_a_session<O: AnyOutside>()
    ensures disk { (inputs : Inputs) (trace : Bool) (ended : Ended) → IsDone inputs trace O.outside.sink O.outside.disk ended → ended.status ≡ 9
        → list_any is_disk_fault (drop ended.last_from ended.rounds) ≡ true }
    ensures spent { (inputs : Inputs) (trace : Bool) (ended : Ended) → IsDone inputs trace O.outside.sink O.outside.disk ended → ended.status ≡ 11
        → list_any is_spent (drop ended.last_from ended.rounds) ≡ true }
    ensures disk_told { (inputs : Inputs) (trace : Bool) (ended : Ended) → IsDone inputs trace O.outside.sink O.outside.disk ended
        → list_any is_disk_fault (drop ended.last_from ended.rounds) ≡ true → Contains (8 ∷ (10 ∷ (9 ∷ []))) ended.status }
    ensures spent_told { (inputs : Inputs) (trace : Bool) (ended : Ended) → IsDone inputs trace O.outside.sink O.outside.disk ended
        → list_any is_spent (drop ended.last_from ended.rounds) ≡ true → Contains (8 ∷ (10 ∷ (9 ∷ (11 ∷ [])))) ended.status }
    ensures listed { (inputs : Inputs) (trace : Bool) (ended : Ended) → IsDone inputs trace O.outside.sink O.outside.disk ended
        → Contains (0 ∷ (8 ∷ (9 ∷ (10 ∷ (11 ∷ []))))) ended.status }
    ensures all_done { (inputs : Inputs) (trace : Bool) (ended : Ended) → IsDone inputs trace O.outside.sink O.outside.disk ended
        → ended.handled ≡ map length inputs.script.contexts → All (λ r. IsTrue (is_some (saved_number r))) (drop ended.last_from ended.rounds)
        → Contains (0 ∷ (8 ∷ (10 ∷ []))) ended.status }
{}

/// With status 0 the run was opened, all keys were handled, every last round was saved, and the sink took the whole output.
pub fn zero_is_whole<O: AnyOutside>()
    ensures opened { (words : List (List ℕ)) (ended : Ended) → (run : IsRun words O.outside ended) → ended.status ≡ 0
        → (inputs : Inputs) × (run.opened ≡ Ok inputs) × IsWhole inputs (asks_trace words) O.outside.sink ended }
{}

/// A run that is refused makes no call and no round. The sink took a front of the refusal's line, and all of it where its count did not rise. The
/// disk was not written, and its count is as it was but where the disk failed.
pub fn refused_runs<O: AnyOutside>()
    ensures ends { (words : List (List ℕ)) (ended : Ended) (refusal : Refusal) (run : IsRun words O.outside ended) → run.opened ≡ Err refusal
        → ended ≡ record { status = refusal_status refusal; journal = []; handled = []; rounds = []; last_from = 0 } }
    ensures front { (words : List (List ℕ)) (ended : Ended) (refusal : Refusal) (run : IsRun words O.outside ended) → run.opened ≡ Err refusal
        → (count : ℕ) × (O.outside.sink.now ≡ appended O.outside.sink.before (take count (refusal_line refusal))) }
    ensures line { (words : List (List ℕ)) (ended : Ended) (refusal : Refusal) (run : IsRun words O.outside ended) → run.opened ≡ Err refusal
        → (Rose O.outside.sink.faults_before O.outside.sink.faults_now → ⊥) → O.outside.sink.now ≡ appended O.outside.sink.before (refusal_line refusal) }
    ensures unwritten { (words : List (List ℕ)) (ended : Ended) (refusal : Refusal) (run : IsRun words O.outside ended) → run.opened ≡ Err refusal
        → O.outside.disk.told ≡ true → IsUnwritten O.outside.disk.before O.outside.disk.now }
    ensures calm { (words : List (List ℕ)) (ended : Ended) (refusal : Refusal) (run : IsRun words O.outside ended) → run.opened ≡ Err refusal
        → refusal ≢ DiskFailed → O.outside.disk.faults_now ≡ O.outside.disk.faults_before }
{}

/// What a run tells that is not refused is a session's: a legal history, the worker's rounds, which are those of the script, and the last ones,
/// from the number on that was recovered; and the disk's count of faults rose by at least one for each round in which it failed. Without
/// a round the disk is unwritten.
pub fn sessions_of_runs<O: AnyOutside>()
    ensures legal { (inputs : Inputs) (trace : Bool) (ended : Ended) → IsDone inputs trace O.outside.sink O.outside.disk ended
        → IsTrue (is_legal inputs.basis.start ended.journal) }
    ensures rounds { (inputs : Inputs) (trace : Bool) (ended : Ended) → IsDone inputs trace O.outside.sink O.outside.disk ended
        → AreRounds inputs.basis.start.dictionary inputs.script.rounds ended.journal ended.rounds }
    ensures last_from { (inputs : Inputs) (trace : Bool) (ended : Ended) → IsDone inputs trace O.outside.sink O.outside.disk ended
        → ended.last_from ≡ inputs.script.rounds }
    ensures seqs { (inputs : Inputs) (trace : Bool) (ended : Ended) → IsDone inputs trace O.outside.sink O.outside.disk ended
        → CountFrom inputs.seq ended.rounds }
    ensures faults { (inputs : Inputs) (trace : Bool) (ended : Ended) → IsDone inputs trace O.outside.sink O.outside.disk ended
        → RoseBy (disk_faults ended.rounds) O.outside.disk.faults_before O.outside.disk.faults_now }
    ensures calm { (inputs : Inputs) (trace : Bool) (ended : Ended) → IsDone inputs trace O.outside.sink O.outside.disk ended
        → disk_faults ended.rounds ≡ 0 → O.outside.disk.faults_now ≡ O.outside.disk.faults_before }
    ensures unwritten { (inputs : Inputs) (trace : Bool) (ended : Ended) → IsDone inputs trace O.outside.sink O.outside.disk ended
        → ended.rounds ≡ [] → O.outside.disk.told ≡ true → IsUnwritten O.outside.disk.before O.outside.disk.now }
{}

/// Over sources that tell what they have left and a disk that tells its slots, of which none fails, the status is 10, or the one that
/// the opening by their contents gives; where it gives inputs, and the sink doesn't fail either, the status is 0, 10 or 11. Where the number
/// that was recovered leaves room for 66 rounds it is 0 or 10, and every round is saved, or memory was wanting for it.
pub fn told_runs<O: AnyOutside>()
    ensures refused { (words : List (List ℕ)) (ended : Ended) (set left keys : List ℕ) (refusal : Refusal) → IsRun words O.outside ended
        → IsCalm O.outside.settings set → IsCalm O.outside.system left → IsCalm O.outside.script keys
        → O.outside.disk.told ≡ true → (Rose O.outside.disk.faults_before O.outside.disk.faults_now → ⊥)
        → opening words (Some (take (settings_limit + 1) set)) (Some (take (system_limit + 1) left)) (Some (take (script_limit + 1) keys))
        (Some (slots_of O.outside.disk.before)) ≡ Err refusal
        → (ended.status ≡ 10) ⊎ (ended.status ≡ refusal_status refusal) }
    ensures complete { (words : List (List ℕ)) (ended : Ended) (set left keys : List ℕ) (inputs : Inputs) → IsRun words O.outside ended
        → IsCalm O.outside.settings set → IsCalm O.outside.system left → IsCalm O.outside.script keys
        → O.outside.disk.told ≡ true → (Rose O.outside.disk.faults_before O.outside.disk.faults_now → ⊥)
        → (Rose O.outside.sink.faults_before O.outside.sink.faults_now → ⊥)
        → opening words (Some (take (settings_limit + 1) set)) (Some (take (system_limit + 1) left)) (Some (take (script_limit + 1) keys))
        (Some (slots_of O.outside.disk.before)) ≡ Ok inputs
        → Contains (0 ∷ (10 ∷ (11 ∷ []))) ended.status }
    ensures room { (words : List (List ℕ)) (ended : Ended) (set left keys : List ℕ) (inputs : Inputs) → IsRun words O.outside ended
        → IsCalm O.outside.settings set → IsCalm O.outside.system left → IsCalm O.outside.script keys
        → O.outside.disk.told ≡ true → (Rose O.outside.disk.faults_before O.outside.disk.faults_now → ⊥)
        → (Rose O.outside.sink.faults_before O.outside.sink.faults_now → ⊥)
        → opening words (Some (take (settings_limit + 1) set)) (Some (take (system_limit + 1) left)) (Some (take (script_limit + 1) keys))
        (Some (slots_of O.outside.disk.before)) ≡ Ok inputs → inputs.seq ≤ 2 ^ 64 - 67
        → Contains (0 ∷ (10 ∷ [])) ended.status × All (λ r. IsTrue (is_some (saved_number r)) ⊎ (r ≡ NoMemory)) ended.rounds }
{}

/// Over such sources and such a disk the statuses 3, 4, 5 and 6 come only where the opening by their contents gives a refusal of that status.
pub fn told_refusals<O: AnyOutside>()
    ensures { (words : List (List ℕ)) (ended : Ended) (set left keys : List ℕ) → IsRun words O.outside ended
        → IsCalm O.outside.settings set → IsCalm O.outside.system left → IsCalm O.outside.script keys
        → O.outside.disk.told ≡ true → (Rose O.outside.disk.faults_before O.outside.disk.faults_now → ⊥) → 3 ≤ ended.status → ended.status ≤ 6
        → (refusal : Refusal) × (refusal_status refusal ≡ ended.status)
        × (opening words (Some (take (settings_limit + 1) set)) (Some (take (system_limit + 1) left)) (Some (take (script_limit + 1) keys))
        (Some (slots_of O.outside.disk.before)) ≡ Err refusal) }
{}

/// Where the disk's count did not rise it failed in no round; and none finds the seq spent where the number that was recovered leaves room for
/// 66 rounds, so that the status is 0 or 10 where the sink's count did not rise either.
pub fn complete_sessions<O: AnyOutside>()
    ensures rounds { (inputs : Inputs) (trace : Bool) (ended : Ended) → IsDone inputs trace O.outside.sink O.outside.disk ended
        → (Rose O.outside.disk.faults_before O.outside.disk.faults_now → ⊥) → All (λ r. IsTrue (is_disk_fault r) → ⊥) ended.rounds }
    ensures unspent { (inputs : Inputs) (trace : Bool) (ended : Ended) → IsDone inputs trace O.outside.sink O.outside.disk ended
        → inputs.script.rounds ≤ 64 → inputs.seq ≤ 2 ^ 64 - 67 → All (λ r. IsTrue (is_spent r) → ⊥) ended.rounds }
    ensures status { (inputs : Inputs) (trace : Bool) (ended : Ended) → IsDone inputs trace O.outside.sink O.outside.disk ended
        → inputs.script.rounds ≤ 64 → inputs.seq ≤ 2 ^ 64 - 67
        → (Rose O.outside.disk.faults_before O.outside.disk.faults_now → ⊥) → (Rose O.outside.sink.faults_before O.outside.sink.faults_now → ⊥)
        → Contains (0 ∷ (10 ∷ [])) ended.status }
{}

/// The sink took a front of the output over the lines of the handled keys, the rounds and the journal. Where its count did not rise it took all
/// lines of the handled keys and all those of the rounds, whatever the status; the trace may be cut, where memory was wanting.
pub fn what_the_sink_took<O: AnyOutside>()
    ensures front { (inputs : Inputs) (trace : Bool) (ended : Ended) → IsDone inputs trace O.outside.sink O.outside.disk ended
        → (lines : List (List Line)) × (count : ℕ) × HandleAll inputs.basis ended.journal 1 inputs.script.contexts ended.handled lines
        × (O.outside.sink.now ≡ appended O.outside.sink.before
        (take count (output (map (flat_map line_text) lines) ended.rounds (traced trace ended.journal)))) }
    ensures lines { (inputs : Inputs) (trace : Bool) (ended : Ended) → IsDone inputs trace O.outside.sink O.outside.disk ended
        → (Rose O.outside.sink.faults_before O.outside.sink.faults_now → ⊥)
        → (lines : List (List Line)) × (entries : List Entry) × HandleAll inputs.basis ended.journal 1 inputs.script.contexts ended.handled lines
        × IsFront entries (traced trace ended.journal)
        × (O.outside.sink.now ≡ appended O.outside.sink.before (output (map (flat_map line_text) lines) ended.rounds entries)) }
{}
