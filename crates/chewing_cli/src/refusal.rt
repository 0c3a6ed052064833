ghost use Rattle.std.specs.Prelude.{◌≡◌, ◌++◌, ◌≤◌, codes, decimal, length};
ghost use Rattle.chew_spec_text.specs.Line.{with_line_feed};
ghost use Rattle.chew_spec_program.specs.Refusal.{fault_line, refusal_line, refusal_status, setting_line, slot_line};
ghost use Rattle.chew_spec_program.specs.Refusal.{row_cause_word, script_cause_word, setting_cause_word};
ghost use Rattle.chew_rows.specs.Faults as row;
ghost use Rattle.chew_script.specs.Faults as script;
ghost use Rattle.chew_settings.specs.Faults as setting;
ghost use Rattle.chew_spec_settings.specs.Name.{setting_word};
ghost use Rattle.chewing_cli.specs.Refusals.{image_refusal, kind_of, read_refusal, script_refusal, settings_refusal, slots_refusal, system_refusal};

use arrayvec::ArrayString;
use chew_commands::status;
use chew_outside::ReadFault;
use chew_rows::{RowCause, RowsFault};
use chew_script::{ScriptCause, ScriptFault};
use chew_settings::{SettingCause, SettingName, SettingsFault};
use chew_slots::SlotFault;
use chew_trie_image::ImageFault;
use itoa::Buffer;

/// Why a run is refused before its first key.
#[derive(Clone, Copy, Debug, PartialEq, Eq)]
pub(crate) enum Refusal {
    /// The words have no form of a command.
    WrongWords,
    /// The settings have a fault at this one.
    WrongSettings {
        key: SettingName,
        cause: SettingCause,
    },
    /// The system has a fault in this line.
    WrongSystem {
        line: u32,
        cause: RowCause,
    },
    /// The script has a fault in this line.
    WrongScript {
        line: u32,
        cause: ScriptCause,
    },
    /// The system is no image: its first faulty place.
    WrongImage {
        place: u64,
    },
    /// A slot is longer than 2^28 bytes.
    SlotTooLarge {
        slot: u8,
        len: u64,
    },
    /// A slot is open, and damaged at this place.
    SlotDamaged {
        slot: u8,
        place: u64,
    },
    /// A source failed.
    SourceFailed,
    /// The disk failed as its slots were read.
    DiskFailed,
    /// Memory was wanting.
    NoMemory,
}

impl Refusal {
    /// Why a text that wasn't read refuses the run.
    pub(crate) fn of_read(fault: ReadFault) -> Refusal
        ensures { kind_of result ≡ read_refusal fault }
    {
        match fault {
            ReadFault::Failed => Refusal::SourceFailed,
            ReadFault::NoMemory => Refusal::NoMemory,
        }
    }

    /// Why a settings text refuses the run.
    pub(crate) fn of_settings(fault: SettingsFault) -> Refusal
        ensures { kind_of result ≡ settings_refusal fault }
    {
        match fault {
            SettingsFault::Bad { key, cause } => Refusal::WrongSettings { key, cause },
            SettingsFault::NoMemory => Refusal::NoMemory,
        }
    }

    /// Why a system's text refuses the run.
    pub(crate) fn of_system(fault: RowsFault) -> Refusal
        ensures { kind_of result ≡ system_refusal fault }
    {
        match fault {
            RowsFault::Bad { line, cause } => Refusal::WrongSystem { line, cause },
            RowsFault::NoMemory => Refusal::NoMemory,
        }
    }

    /// Why the bytes of an image refuse the run.
    pub(crate) fn of_image(fault: ImageFault) -> Refusal
        ensures { kind_of result ≡ image_refusal fault }
    {
        Refusal::WrongImage { place: fault.place }
    }

    /// Why the slots of a disk refuse the run.
    pub(crate) fn of_slots(fault: SlotFault) -> Refusal
        ensures { kind_of result ≡ slots_refusal fault }
    {
        match fault {
            SlotFault::DiskFault => Refusal::DiskFailed,
            SlotFault::TooLarge { slot, len } => Refusal::SlotTooLarge { slot, len },
            SlotFault::Damaged { slot, place } => Refusal::SlotDamaged { slot, place },
            SlotFault::NoMemory => Refusal::NoMemory,
        }
    }

    /// Why a script's text refuses the run.
    pub(crate) fn of_script(fault: ScriptFault) -> Refusal
        ensures { kind_of result ≡ script_refusal fault }
    {
        match fault {
            ScriptFault::Bad { line, cause } => Refusal::WrongScript { line, cause },
            ScriptFault::NoMemory => Refusal::NoMemory,
        }
    }

    /// The status of the run.
    pub(crate) fn status(self) -> u8
        ensures { result ≡ refusal_status (kind_of self) }
    {
        match self {
            Refusal::WrongWords => status::WRONG_WORDS,
            Refusal::WrongSettings { .. } => status::WRONG_SETTINGS,
            Refusal::WrongSystem { .. } => status::WRONG_SYSTEM,
            Refusal::WrongScript { .. } => status::WRONG_SCRIPT,
            Refusal::WrongImage { .. } => status::WRONG_SYSTEM,
            Refusal::SlotTooLarge { .. } => status::WRONG_SLOT,
            Refusal::SlotDamaged { .. } => status::WRONG_SLOT,
            Refusal::SourceFailed => status::SOURCE_FAILED,
            Refusal::DiskFailed => status::DISK_FAILED,
            Refusal::NoMemory => status::NO_MEMORY,
        }
    }

    /// The one line that is written. It takes no memory.
    pub(crate) fn refusal_line(self) -> ArrayString<40>
        ensures { result.bytes ≡ refusal_line (kind_of self) }
    {
        match self {
            Refusal::WrongWords => word_line("words"),
            Refusal::WrongSettings { key, cause } => setting_line(key, setting_cause_word(cause)),
            Refusal::WrongSystem { line, cause } => fault_line("system", line, row_word(cause)),
            Refusal::WrongScript { line, cause } => fault_line("script", line, script_word(cause)),
            Refusal::WrongImage { place } => image_line(place),
            Refusal::SlotTooLarge { slot, len } => slot_line(slot, "too large", len),
            Refusal::SlotDamaged { slot, place } => slot_line(slot, "damaged", place),
            Refusal::SourceFailed => word_line("source"),
            Refusal::DiskFailed => word_line("disk"),
            Refusal::NoMemory => word_line("memory"),
        }
    }
}

/// A word alone.
fn word_line(word: &str) -> ArrayString<40>
    requires { length word.now ≤ 10 }
    ensures { result.bytes ≡ with_line_feed word.now }
{
    let mut line = ArrayString::new();
    line.push_str(word);
    line.push_str("\n");
    line
}

/// The name of an input, the number of its line, and the word of a cause.
fn fault_line(input: &str, number: u32, word: &str) -> ArrayString<40>
    requires input { length input.now ≤ 6 }
    requires word { length word.now ≤ 10 }
    ensures { result.bytes ≡ fault_line input.now number word.now }
{
    let mut digits = Buffer::new();
    let mut line = ArrayString::new();
    line.push_str(input);
    line.push_str(" ");
    line.push_str(digits.format(number));
    line.push_str(" ");
    line.push_str(word);
    line.push_str("\n");
    line
}

/// The first faulty place of an image.
fn image_line(place: u64) -> ArrayString<40>
    ensures { result.bytes ≡ codes "system image " ++ with_line_feed (decimal place) }
{
    let mut digits = Buffer::new();
    let mut line = ArrayString::new();
    line.push_str("system image ");
    line.push_str(digits.format(place));
    line.push_str("\n");
    line
}

/// The number of a slot, what is wrong with it, and a number of bytes.
fn slot_line(slot: u8, wrong: &str, number: u64) -> ArrayString<40>
    requires { length wrong.now ≤ 9 }
    ensures { result.bytes ≡ slot_line slot wrong.now number }
{
    let mut digits = Buffer::new();
    let mut line = ArrayString::new();
    line.push_str("slot ");
    line.push_str(digits.format(slot));
    line.push_str(" ");
    line.push_str(wrong);
    line.push_str(" ");
    line.push_str(digits.format(number));
    line.push_str("\n");
    line
}

/// The name of a setting, and the word of a cause.
fn setting_line(key: SettingName, word: &str) -> ArrayString<40>
    requires { length word.now ≤ 7 }
    ensures { result.bytes ≡ setting_line (setting_word (setting.name_of key)) word.now }
{
    let name = key.word();
    let mut line = ArrayString::new();
    line.push_str("settings ");
    line.push_str(name);
    line.push_str(" ");
    line.push_str(word);
    line.push_str("\n");
    line
}

/// The word of a fault of settings.
fn setting_cause_word(cause: SettingCause) -> &'static str
    ensures word { result.now ≡ setting_cause_word (setting.cause_of cause) }
    ensures short { length result.now ≤ 7 }
{
    match cause {
        SettingCause::Size => "size",
        SettingCause::Toml => "toml",
        SettingCause::Unknown => "unknown",
        SettingCause::Kind => "kind",
        SettingCause::Range => "range",
    }
}

/// The word of a fault of a dictionary's text.
fn row_word(cause: RowCause) -> &'static str
    ensures word { result.now ≡ row_cause_word (row.cause_of cause) }
    ensures short { length result.now ≤ 10 }
{
    match cause {
        RowCause::Size => "size",
        RowCause::Phrase => "phrase",
        RowCause::Frequency => "frequency",
        RowCause::Syllable => "syllable",
        RowCause::Lengths => "lengths",
        RowCause::Twice => "twice",
        RowCause::Rows => "rows",
    }
}

/// The word of a fault of a script's text.
fn script_word(cause: ScriptCause) -> &'static str
    ensures word { result.now ≡ script_cause_word (script.cause_of cause) }
    ensures short { length result.now ≤ 10 }
{
    match cause {
        ScriptCause::Size => "size",
        ScriptCause::Byte => "byte",
        ScriptCause::Form => "line",
        ScriptCause::Context => "context",
        ScriptCause::Key => "key",
        ScriptCause::Keys => "keys",
        ScriptCause::Rounds => "rounds",
    }
}
