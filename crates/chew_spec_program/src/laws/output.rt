//! Laws and known values of what is printed, and of refusals.

ghost use Rattle.std.specs.Prelude.{◌≡◌, ℕ, ◌+◌, List, [], ◌∷◌, ◌++◌, flat_map, length, map, codes, false, true};
ghost use Rattle.chew_spec_dictionary.specs.History.{Entry};
ghost use Rattle.chew_spec_text.specs.DictionaryText as row;
ghost use Rattle.chew_spec_text.specs.Line.{Bell, line_text, with_line_feed};
ghost use Rattle.chew_spec_text.specs.Sample.{bytes_of};
ghost use Rattle.chew_spec_text.specs.Script as script;
ghost use Rattle.chew_spec_rounds.specs.Round as round;
ghost use Rattle.chew_spec_rounds.specs.Round.{Round};
ghost use Rattle.chew_spec_settings.specs.Fault as fault;
ghost use Rattle.chew_spec_settings.specs.Name as setting;
ghost use Rattle.chew_spec_program.specs.Output.{contexts_from, header, output, round_line, rounds_from, traced};
ghost use Rattle.chew_spec_program.specs.Refusal.{refusal_line, refusal_status, WrongWords, WrongSettings, WrongSystem, WrongScript, WrongImage, SlotTooLarge, SlotDamaged, SourceFailed, DiskFailed, NoMemory};
ghost use Rattle.chew_spec_program.specs.SampleRun.{five_journal, five_trace};

/// The header of the first context.
pub fn known_header()
    ensures first { header 1 ≡ codes "context 1" ++ 10 ∷ [] }
    ensures last { header 16 ≡ codes "context 16" ++ 10 ∷ [] }
{}

/// The line of each answer of a round.
pub fn known_round_lines()
    ensures saved { round_line 1 (round.Saved 3) ≡ codes "round 1 saved 3" ++ 10 ∷ [] }
    ensures saved_none { round_line 1 (round.Saved 0) ≡ codes "round 1 saved 0" ++ 10 ∷ [] }
    ensures fault { round_line 1 (round.DiskFault 2) ≡ codes "round 1 disk fault 2" ++ 10 ∷ [] }
    ensures memory { round_line 66 round.NoMemory ≡ codes "round 66 no memory" ++ 10 ∷ [] }
    ensures spent { round_line 1 (round.SeqSpent 18_446_744_073_709_551_615) ≡ codes "round 1 seq spent" ++ 10 ∷ [] }
{}

/// The output of two contexts, the first without a handled key, and of two rounds.
pub fn known_output()
    ensures two { output ([] ∷ (flat_map line_text (record { preedit = []; column = 0; held = []; commit = []; window = []; note = Bell } ∷ []) ∷ []))
        (round.DiskFault 6 ∷ (round.Saved 42 ∷ [])) []
        ≡ bytes_of "context 1\ncontext 2\n\t0\t\t\t\tbell\nround 1 disk fault 6\nround 2 saved 42\n" }
    ensures none { output [] [] [] ≡ [] }
{}

/// A trace has a line for each entry, in their order; where it isn't asked for, none.
pub fn known_trace()
    ensures asked { output [] [] (traced true five_journal) ≡ five_trace }
    ensures all { (journal : List Entry) → traced true journal ≡ journal }
    ensures none { (journal : List Entry) → traced false journal ≡ [] }
{}

/// Of contexts and one more theirs come first, and the last behind them; and so with rounds.
pub fn outputs_in_order()
    ensures contexts { (contexts : List (List ℕ)) (lines : List ℕ)
        → contexts_from 1 (contexts ++ lines ∷ []) ≡ contexts_from 1 contexts ++ (header (length contexts + 1) ++ lines) }
    ensures rounds { (rounds : List Round) (last : Round) → rounds_from 1 (rounds ++ last ∷ []) ≡ rounds_from 1 rounds ++ round_line (length rounds + 1) last }
{}

/// The line and the status of each refusal that names no cause.
pub fn known_refusals()
    ensures words { refusal_line WrongWords ≡ with_line_feed (codes "words") }
    ensures source { refusal_line SourceFailed ≡ with_line_feed (codes "source") }
    ensures disk { refusal_line DiskFailed ≡ with_line_feed (codes "disk") }
    ensures memory { refusal_line NoMemory ≡ with_line_feed (codes "memory") }
    ensures statuses { map refusal_status (WrongWords ∷ (SourceFailed ∷ (DiskFailed ∷ (NoMemory ∷ [])))) ≡ 2 ∷ (7 ∷ (9 ∷ (10 ∷ []))) }
{}

/// The line of each fault of a slot, and the status 6.
pub fn known_slot_refusals()
    ensures damaged { refusal_line (SlotDamaged 0 60) ≡ with_line_feed (codes "slot 0 damaged 60") }
    ensures damaged_one { refusal_line (SlotDamaged 1 127) ≡ with_line_feed (codes "slot 1 damaged 127") }
    ensures too_large { refusal_line (SlotTooLarge 1 268_435_457) ≡ with_line_feed (codes "slot 1 too large 268435457") }
    ensures status_damaged { (slot place : ℕ) → refusal_status (SlotDamaged slot place) ≡ 6 }
    ensures status_too_large { (slot len : ℕ) → refusal_status (SlotTooLarge slot len) ≡ 6 }
{}

/// The line of each fault of a system, and the status 4.
pub fn known_system_refusals()
    ensures size { refusal_line (WrongSystem (record { line = 0; cause = row.Size })) ≡ with_line_feed (codes "system 0 size") }
    ensures phrase { refusal_line (WrongSystem (record { line = 1; cause = row.Phrase })) ≡ with_line_feed (codes "system 1 phrase") }
    ensures frequency { refusal_line (WrongSystem (record { line = 2; cause = row.Frequency })) ≡ with_line_feed (codes "system 2 frequency") }
    ensures syllable { refusal_line (WrongSystem (record { line = 3; cause = row.Syllable })) ≡ with_line_feed (codes "system 3 syllable") }
    ensures lengths { refusal_line (WrongSystem (record { line = 10; cause = row.Lengths })) ≡ with_line_feed (codes "system 10 lengths") }
    ensures twice { refusal_line (WrongSystem (record { line = 250; cause = row.Twice })) ≡ with_line_feed (codes "system 250 twice") }
    ensures rows { refusal_line (WrongSystem (record { line = 250_001; cause = row.Rows })) ≡ with_line_feed (codes "system 250001 rows") }
    ensures status { (line : ℕ) (cause : row.RowCause) → refusal_status (WrongSystem (record { line = line; cause = cause })) ≡ 4 }
{}

/// The line of an image's faulty place, and the status 4.
pub fn known_image_refusals()
    ensures first { refusal_line (WrongImage 0) ≡ with_line_feed (codes "system image 0") }
    ensures later { refusal_line (WrongImage 93) ≡ with_line_feed (codes "system image 93") }
    ensures status { (place : ℕ) → refusal_status (WrongImage place) ≡ 4 }
{}

/// The line of faults of settings, with the name of each setting and the word of each cause, and the status 3.
pub fn known_settings_refusals()
    ensures size { refusal_line (WrongSettings (record { key = setting.Other; cause = fault.Size })) ≡ with_line_feed (codes "settings ? size") }
    ensures toml { refusal_line (WrongSettings (record { key = setting.Other; cause = fault.Toml })) ≡ with_line_feed (codes "settings ? toml") }
    ensures unknown { refusal_line (WrongSettings (record { key = setting.Other; cause = fault.Unknown })) ≡ with_line_feed (codes "settings ? unknown") }
    ensures layout { refusal_line (WrongSettings (record { key = setting.Layout; cause = fault.Kind })) ≡ with_line_feed (codes "settings layout kind") }
    ensures buffer { refusal_line (WrongSettings (record { key = setting.Buffer; cause = fault.Range })) ≡ with_line_feed (codes "settings buffer range") }
    ensures page { refusal_line (WrongSettings (record { key = setting.Page; cause = fault.Kind })) ≡ with_line_feed (codes "settings page kind") }
    ensures selection { refusal_line (WrongSettings (record { key = setting.Selection; cause = fault.Range }))
        ≡ with_line_feed (codes "settings selection range") }
    ensures escape_clears { refusal_line (WrongSettings (record { key = setting.EscapeClears; cause = fault.Kind }))
        ≡ with_line_feed (codes "settings escape_clears kind") }
    ensures learn { refusal_line (WrongSettings (record { key = setting.Learn; cause = fault.Kind })) ≡ with_line_feed (codes "settings learn kind") }
    ensures cap { refusal_line (WrongSettings (record { key = setting.Cap; cause = fault.Range })) ≡ with_line_feed (codes "settings cap range") }
    ensures status { (key : setting.SettingName) (cause : fault.SettingCause) → refusal_status (WrongSettings (record { key = key; cause = cause })) ≡ 3 }
{}

/// The line of each fault of a script, and the status 5.
pub fn known_script_refusals()
    ensures size { refusal_line (WrongScript (record { line = 0; cause = script.Size })) ≡ with_line_feed (codes "script 0 size") }
    ensures byte { refusal_line (WrongScript (record { line = 1; cause = script.Byte })) ≡ with_line_feed (codes "script 1 byte") }
    ensures form { refusal_line (WrongScript (record { line = 2; cause = script.Form })) ≡ with_line_feed (codes "script 2 line") }
    ensures context { refusal_line (WrongScript (record { line = 1; cause = script.Context })) ≡ with_line_feed (codes "script 1 context") }
    ensures key { refusal_line (WrongScript (record { line = 1; cause = script.Key })) ≡ with_line_feed (codes "script 1 key") }
    ensures keys { refusal_line (WrongScript (record { line = 17; cause = script.Keys })) ≡ with_line_feed (codes "script 17 keys") }
    ensures rounds { refusal_line (WrongScript (record { line = 65; cause = script.Rounds })) ≡ with_line_feed (codes "script 65 rounds") }
    ensures status { (line : ℕ) (cause : script.ScriptCause) → refusal_status (WrongScript (record { line = line; cause = cause })) ≡ 5 }
{}
