//! Laws of what a run stands on, and of the order in which its inputs are read.

ghost use Rattle.std.specs.Prelude.{◌≡◌, ◌<◌, ◌≤◌, ℕ, Bool, Err, IsTrue, List, None, Ok, Result, Some, false, is_ok, length, true};
ghost use Rattle.std.specs.List.{list_all};
ghost use Rattle.chew_spec_syllable.specs.Row.{is_row};
ghost use Rattle.chew_spec_disk.specs.Disk.{DiskState};
ghost use Rattle.chew_spec_dictionary.specs.History.{start_of};
ghost use Rattle.chew_spec_text.specs.DictionaryText.{Size, system_limit};
ghost use Rattle.chew_spec_text.specs.KeyStroke.{is_key_stroke};
ghost use Rattle.chew_spec_text.specs.Script.{script_limit};
ghost use Rattle.chew_spec_editor.specs.Invariant.{is_settings};
ghost use Rattle.chew_spec_settings.specs.SettingsText.{settings_limit};
ghost use Rattle.chew_spec_slots.specs.Recovery.{refusal};
ghost use Rattle.chew_spec_program.specs.Command.{is_run_command, names_settings};
ghost use Rattle.chew_spec_program.specs.Opening.{Inputs, IsOpening, Opens, script_value, settings_value, slots_value, system_rows, system_value};
ghost use Rattle.chew_spec_program.specs.Reading.{IsRead, IsUnread, Watched};
ghost use Rattle.chew_spec_program.specs.Refusal.{Refusal, SlotTooLarge, WrongSystem};
ghost use Rattle.chew_spec_program.specs.Slots.{AreRead, IsUncalled, Kept, kept};

/// Any disk over a call, of which a law speaks.
pub trait AnyKept {
    ghost disk: { Kept };
}

/// The system of a run that is opened has rows, its settings are in their ranges, its history begins with rows, at most 200,000, and
/// its contexts have keys that a script can name; there are at most 16 of them, and the script asks at most 64 rounds.
pub fn opened_on_rows<K: AnyKept>()
    ensures rows { (words : List (List ℕ)) (settings system script : Watched) (inputs : Inputs) → IsOpening words settings system script K.disk (Ok inputs)
        → IsTrue (list_all is_row inputs.basis.system) }
    ensures settings { (words : List (List ℕ)) (settings system script : Watched) (inputs : Inputs) → IsOpening words settings system script K.disk (Ok inputs)
        → IsTrue (is_settings inputs.basis.settings) }
    ensures start { (words : List (List ℕ)) (settings system script : Watched) (inputs : Inputs) → IsOpening words settings system script K.disk (Ok inputs)
        → IsTrue (list_all is_row inputs.basis.start.dictionary.pairs) }
    ensures few_pairs { (words : List (List ℕ)) (settings system script : Watched) (inputs : Inputs) → IsOpening words settings system script K.disk (Ok inputs)
        → length inputs.basis.start.dictionary.pairs ≤ 200_000 }
    ensures begins { (words : List (List ℕ)) (settings system script : Watched) (inputs : Inputs) → IsOpening words settings system script K.disk (Ok inputs)
        → inputs.basis.start ≡ start_of inputs.basis.start.dictionary }
    ensures keys { (words : List (List ℕ)) (settings system script : Watched) (inputs : Inputs) → IsOpening words settings system script K.disk (Ok inputs)
        → IsTrue (list_all (list_all is_key_stroke) inputs.script.contexts) }
    ensures contexts { (words : List (List ℕ)) (settings system script : Watched) (inputs : Inputs) → IsOpening words settings system script K.disk (Ok inputs)
        → length inputs.script.contexts ≤ 16 }
    ensures rounds { (words : List (List ℕ)) (settings system script : Watched) (inputs : Inputs) → IsOpening words settings system script K.disk (Ok inputs)
        → inputs.script.rounds ≤ 64 }
{}

/// A system that is longer than 64 MiB is told so, whether text or image; and a slot that is longer than 2^28 bytes, slot 1 where slot 0
/// is not refused.
pub fn too_long()
    ensures system { (bytes : List ℕ) → 67_108_864 < length bytes → system_rows bytes ≡ Err (WrongSystem (record { line = 0; cause = Size })) }
    ensures zero { (zero one : List ℕ) → 268_435_456 < length zero
        → slots_value (Some (record { zero = zero; one = one })) ≡ Err (SlotTooLarge 0 (length zero)) }
    ensures one { (zero one : List ℕ) → refusal 0 zero ≡ None → 268_435_456 < length one
        → slots_value (Some (record { zero = zero; one = one })) ≡ Err (SlotTooLarge 1 (length one)) }
    ensures limits { (settings_limit ≡ 65_536) × (script_limit ≡ 1_048_576) × (system_limit ≡ 67_108_864) }
{}

/// The settings are read where the words name them. Where the words have no form of a run all sources and the disk are as they were;
/// the system, the script and the disk are where the settings have a fault or their source failed; the script and the disk where the
/// system has a fault or its source failed; and the disk where that is so of the script.
pub fn read_in_order<K: AnyKept>()
    ensures words { (words : List (List ℕ)) (settings system script : Watched) (opened : Result Inputs Refusal)
        → IsOpening words settings system script K.disk opened
        → is_run_command words ≡ false → IsUnread settings × IsUnread system × IsUnread script × IsUncalled K.disk }
    ensures settings { (words : List (List ℕ)) (settings system script : Watched) (opened : Result Inputs Refusal)
        (opens : Opens words settings system script K.disk opened)
        → is_ok (settings_value (names_settings words) opens.settings_text) ≡ false → IsUnread system × IsUnread script × IsUncalled K.disk }
    ensures system { (words : List (List ℕ)) (settings system script : Watched) (opened : Result Inputs Refusal)
        (opens : Opens words settings system script K.disk opened)
        → is_ok (system_value opens.system_text) ≡ false → IsUnread script × IsUncalled K.disk }
    ensures script { (words : List (List ℕ)) (settings system script : Watched) (opened : Result Inputs Refusal)
        (opens : Opens words settings system script K.disk opened)
        → is_ok (script_value opens.script_text) ≡ false → IsUncalled K.disk }
    ensures named { (words : List (List ℕ)) (settings system script : Watched) (opened : Result Inputs Refusal)
        (opens : Opens words settings system script K.disk opened)
        → names_settings words ≡ true → IsRead settings settings_limit opens.settings_text }
    ensures unnamed { (words : List (List ℕ)) (settings system script : Watched) (opened : Result Inputs Refusal)
        (opens : Opens words settings system script K.disk opened)
        → names_settings words ≡ false → IsUnread settings }
{}

/// A run that is opened has read its system and its script to their ends, or to one byte past their limits, and both slots.
pub fn all_is_read<K: AnyKept>()
    ensures system { (words : List (List ℕ)) (settings system script : Watched) (inputs : Inputs)
        (opens : Opens words settings system script K.disk (Ok inputs))
        → IsRead system system_limit opens.system_text }
    ensures script { (words : List (List ℕ)) (settings system script : Watched) (inputs : Inputs)
        (opens : Opens words settings system script K.disk (Ok inputs))
        → IsRead script script_limit opens.script_text }
    ensures slots { (words : List (List ℕ)) (settings system script : Watched) (inputs : Inputs) (opens : Opens words settings system script K.disk (Ok inputs))
        → AreRead K.disk opens.slots }
{}

/// Any disk as a run begins, once its slots were read, and now.
pub trait AnyStretch {
    ghost before: { DiskState };

    ghost between: { DiskState };

    ghost now: { DiskState };
}

/// A run that is opened as the slots were read is so over the whole call, whatever comes of the disk and of its count then.
pub fn openings_stay<S: AnyStretch>()
    ensures { (words : List (List ℕ)) (settings system script : Watched) (told : Bool) (faults_before faults_between faults_now : ℕ) (inputs : Inputs)
        → IsOpening words settings system script (kept told S.before S.between faults_before faults_between) (Ok inputs)
        → IsOpening words settings system script (kept told S.before S.now faults_before faults_now) (Ok inputs) }
{}
