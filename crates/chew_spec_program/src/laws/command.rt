//! Known command lines.

ghost use Rattle.std.specs.Prelude.{◌≡◌, [], ◌∷◌, None, Some, codes, false, true};
ghost use Rattle.chew_spec_program.specs.Command.{Build, Check, Dump, Make, Run, command_of};

/// A run has three names or four, each at its own place.
pub fn known_runs()
    ensures three { command_of (codes "run" ∷ (codes "s" ∷ (codes "k" ∷ (codes "f" ∷ [])))) ≡ Some (Run false 1 2 3 None) }
    ensures four { command_of (codes "run" ∷ (codes "s" ∷ (codes "k" ∷ (codes "f" ∷ (codes "t" ∷ []))))) ≡ Some (Run false 1 2 3 (Some 4)) }
    ensures dash_inside { command_of (codes "run" ∷ (codes "s-" ∷ (codes "k-k" ∷ (codes "./-f" ∷ [])))) ≡ Some (Run false 1 2 3 None) }
    ensures alike { command_of (codes "run" ∷ (codes "run" ∷ (codes "run" ∷ (codes "run" ∷ [])))) ≡ Some (Run false 1 2 3 None) }
    ensures two { command_of (codes "run" ∷ (codes "s" ∷ (codes "k" ∷ []))) ≡ None }
    ensures five { command_of (codes "run" ∷ (codes "s" ∷ (codes "k" ∷ (codes "f" ∷ (codes "t" ∷ (codes "u" ∷ [])))))) ≡ None }
{}

/// The trace is asked for at any place behind `run`, and the names keep their places among all words.
pub fn known_traces()
    ensures first { command_of (codes "run" ∷ (codes "--trace" ∷ (codes "s" ∷ (codes "k" ∷ (codes "f" ∷ []))))) ≡ Some (Run true 2 3 4 None) }
    ensures second { command_of (codes "run" ∷ (codes "s" ∷ (codes "--trace" ∷ (codes "k" ∷ (codes "f" ∷ []))))) ≡ Some (Run true 1 3 4 None) }
    ensures third { command_of (codes "run" ∷ (codes "s" ∷ (codes "k" ∷ (codes "--trace" ∷ (codes "f" ∷ (codes "t" ∷ [])))))) ≡ Some (Run true 1 2 4 (Some 5)) }
    ensures fourth { command_of (codes "run" ∷ (codes "s" ∷ (codes "k" ∷ (codes "f" ∷ (codes "--trace" ∷ (codes "t" ∷ []))))))
        ≡ Some (Run true 1 2 3 (Some 5)) }
    ensures last { command_of (codes "run" ∷ (codes "s" ∷ (codes "k" ∷ (codes "f" ∷ (codes "--trace" ∷ []))))) ≡ Some (Run true 1 2 3 None) }
{}

/// It is refused twice, in front of `run`, otherwise written, in place of a name, and beside every other command.
pub fn refused_traces()
    ensures twice { command_of (codes "run" ∷ (codes "s" ∷ (codes "k" ∷ (codes "f" ∷ (codes "--trace" ∷ (codes "--trace" ∷ [])))))) ≡ None }
    ensures apart { command_of (codes "run" ∷ (codes "--trace" ∷ (codes "s" ∷ (codes "k" ∷ (codes "f" ∷ (codes "--trace" ∷ [])))))) ≡ None }
    ensures before { command_of (codes "--trace" ∷ (codes "run" ∷ (codes "s" ∷ (codes "k" ∷ (codes "f" ∷ []))))) ≡ None }
    ensures shorter { command_of (codes "run" ∷ (codes "s" ∷ (codes "k" ∷ (codes "f" ∷ (codes "--trac" ∷ []))))) ≡ None }
    ensures longer { command_of (codes "run" ∷ (codes "s" ∷ (codes "k" ∷ (codes "f" ∷ (codes "--traces" ∷ []))))) ≡ None }
    ensures one_dash { command_of (codes "run" ∷ (codes "s" ∷ (codes "k" ∷ (codes "f" ∷ (codes "-trace" ∷ []))))) ≡ None }
    ensures name { command_of (codes "run" ∷ (codes "s" ∷ (codes "k" ∷ (codes "--trace" ∷ [])))) ≡ None }
    ensures build { command_of (codes "build" ∷ (codes "a" ∷ (codes "b" ∷ (codes "--trace" ∷ [])))) ≡ None }
    ensures check { command_of (codes "check" ∷ (codes "--trace" ∷ (codes "a" ∷ []))) ≡ None }
    ensures make { command_of (codes "make" ∷ (codes "7" ∷ (codes "--trace" ∷ []))) ≡ None }
{}

/// The other commands, and each with a word less and a word more.
pub fn known_commands()
    ensures build { command_of (codes "build" ∷ (codes "a" ∷ (codes "b" ∷ []))) ≡ Some (Build 1 2) }
    ensures same { command_of (codes "build" ∷ (codes "a" ∷ (codes "a" ∷ []))) ≡ Some (Build 1 2) }
    ensures check { command_of (codes "check" ∷ (codes "a" ∷ [])) ≡ Some (Check 1) }
    ensures dump { command_of (codes "dump" ∷ (codes "a" ∷ [])) ≡ Some (Dump 1) }
    ensures make { command_of (codes "make" ∷ (codes "7" ∷ [])) ≡ Some (Make 7) }
    ensures build_one { command_of (codes "build" ∷ (codes "a" ∷ [])) ≡ None }
    ensures build_three { command_of (codes "build" ∷ (codes "a" ∷ (codes "b" ∷ (codes "c" ∷ [])))) ≡ None }
    ensures check_none { command_of (codes "check" ∷ []) ≡ None }
    ensures check_two { command_of (codes "check" ∷ (codes "a" ∷ (codes "b" ∷ []))) ≡ None }
    ensures dump_none { command_of (codes "dump" ∷ []) ≡ None }
    ensures dump_two { command_of (codes "dump" ∷ (codes "a" ∷ (codes "b" ∷ []))) ≡ None }
    ensures make_none { command_of (codes "make" ∷ []) ≡ None }
    ensures make_two { command_of (codes "make" ∷ (codes "7" ∷ (codes "7" ∷ []))) ≡ None }
{}

/// Words that begin with no command's name.
pub fn unknown_commands()
    ensures none { command_of [] ≡ None }
    ensures other { command_of (codes "walk" ∷ (codes "s" ∷ (codes "k" ∷ (codes "f" ∷ [])))) ≡ None }
    ensures longer { command_of (codes "runs" ∷ (codes "s" ∷ (codes "k" ∷ (codes "f" ∷ [])))) ≡ None }
    ensures shorter { command_of (codes "ru" ∷ (codes "s" ∷ (codes "k" ∷ (codes "f" ∷ [])))) ≡ None }
    ensures capital { command_of (codes "Run" ∷ (codes "s" ∷ (codes "k" ∷ (codes "f" ∷ [])))) ≡ None }
    ensures names { command_of (codes "s" ∷ (codes "k" ∷ (codes "f" ∷ []))) ≡ None }
    ensures help { command_of (codes "--help" ∷ []) ≡ None }
    ensures version { command_of (codes "--version" ∷ []) ≡ None }
    ensures empty { command_of ([] ∷ []) ≡ None }
    ensures empty_first { command_of ([] ∷ (codes "s" ∷ (codes "k" ∷ (codes "f" ∷ [])))) ≡ None }
{}

/// The number of `make` has 1 to 20 digits, zeros in front among them, and is at most 2^64-1.
pub fn known_numbers()
    ensures zero { command_of (codes "make" ∷ (codes "0" ∷ [])) ≡ Some (Make 0) }
    ensures zeros { command_of (codes "make" ∷ (codes "00007" ∷ [])) ≡ Some (Make 7) }
    ensures twenty { command_of (codes "make" ∷ (codes "00000000000000000007" ∷ [])) ≡ Some (Make 7) }
    ensures greatest { command_of (codes "make" ∷ (codes "18446744073709551615" ∷ [])) ≡ Some (Make 18_446_744_073_709_551_615) }
    ensures greater { command_of (codes "make" ∷ (codes "18446744073709551616" ∷ [])) ≡ None }
    ensures twenty_one { command_of (codes "make" ∷ (codes "000000000000000000007" ∷ [])) ≡ None }
    ensures empty { command_of (codes "make" ∷ ([] ∷ [])) ≡ None }
    ensures letter { command_of (codes "make" ∷ (codes "7a" ∷ [])) ≡ None }
    ensures plus { command_of (codes "make" ∷ (codes "+7" ∷ [])) ≡ None }
    ensures minus { command_of (codes "make" ∷ (codes "-7" ∷ [])) ≡ None }
    ensures space { command_of (codes "make" ∷ (codes " 7" ∷ [])) ≡ None }
{}

/// At no place may a name begin with `-`.
pub fn options_are_refused()
    ensures system { command_of (codes "run" ∷ (codes "--help" ∷ (codes "k" ∷ (codes "f" ∷ [])))) ≡ None }
    ensures script { command_of (codes "run" ∷ (codes "s" ∷ (codes "-h" ∷ (codes "f" ∷ [])))) ≡ None }
    ensures folder { command_of (codes "run" ∷ (codes "s" ∷ (codes "k" ∷ (codes "--" ∷ [])))) ≡ None }
    ensures settings { command_of (codes "run" ∷ (codes "s" ∷ (codes "k" ∷ (codes "f" ∷ (codes "-t" ∷ []))))) ≡ None }
    ensures dash { command_of (codes "run" ∷ (codes "s" ∷ (codes "-" ∷ (codes "f" ∷ [])))) ≡ None }
    ensures before { command_of (codes "--" ∷ (codes "run" ∷ (codes "s" ∷ (codes "k" ∷ (codes "f" ∷ []))))) ≡ None }
    ensures build_from { command_of (codes "build" ∷ (codes "-a" ∷ (codes "b" ∷ []))) ≡ None }
    ensures build_to { command_of (codes "build" ∷ (codes "a" ∷ (codes "-b" ∷ []))) ≡ None }
    ensures check { command_of (codes "check" ∷ (codes "-a" ∷ [])) ≡ None }
    ensures dump { command_of (codes "dump" ∷ (codes "--" ∷ [])) ≡ None }
{}

/// At no place may a name be empty.
pub fn empty_names_are_refused()
    ensures system { command_of (codes "run" ∷ ([] ∷ (codes "k" ∷ (codes "f" ∷ [])))) ≡ None }
    ensures script { command_of (codes "run" ∷ (codes "s" ∷ ([] ∷ (codes "f" ∷ [])))) ≡ None }
    ensures folder { command_of (codes "run" ∷ (codes "s" ∷ (codes "k" ∷ ([] ∷ [])))) ≡ None }
    ensures settings { command_of (codes "run" ∷ (codes "s" ∷ (codes "k" ∷ (codes "f" ∷ ([] ∷ []))))) ≡ None }
    ensures build_from { command_of (codes "build" ∷ ([] ∷ (codes "b" ∷ []))) ≡ None }
    ensures build_to { command_of (codes "build" ∷ (codes "a" ∷ ([] ∷ []))) ≡ None }
    ensures check { command_of (codes "check" ∷ ([] ∷ [])) ≡ None }
    ensures dump { command_of (codes "dump" ∷ ([] ∷ [])) ≡ None }
{}
