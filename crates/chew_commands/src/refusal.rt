ghost use Rattle.std.specs.Prelude.{◌≡◌, ◌≤◌, codes, length};
ghost use Rattle.chew_spec_text.specs.Line.{with_line_feed};
ghost use Rattle.chew_spec_program.specs.Refusal as spec;
ghost use Rattle.chew_spec_program.specs.Refusal.{fault_line, refusal_line, refusal_status, row_cause_word};
ghost use Rattle.chew_rows.specs.Faults as row;
ghost use Rattle.chew_commands.specs.Refusals.{image_refusal, kind_of, read_refusal, text_refusal};

use crate::status;
use arrayvec::ArrayString;
use chew_outside::ReadFault;
use chew_rows::{RowCause, RowsFault};
use chew_trie_image::ImageFault;
use itoa::Buffer;

/// Why a command makes nothing of its input.
#[derive(Clone, Copy, Debug, PartialEq, Eq)]
pub(crate) enum Refusal {
    /// The text of a dictionary has a fault in this line; or, in line 0, an input is too long.
    WrongText { line: u32, cause: RowCause },
    /// The bytes are no image: their first faulty place.
    WrongImage { place: u64 },
    /// The source failed.
    SourceFailed,
    /// Memory was wanting.
    NoMemory,
}

impl Refusal {
    /// Why an input wasn't read.
    pub(crate) fn of_read(fault: ReadFault) -> Refusal
        ensures { kind_of result ≡ read_refusal fault }
    {
        match fault {
            ReadFault::Failed => Refusal::SourceFailed,
            ReadFault::NoMemory => Refusal::NoMemory,
        }
    }

    /// Why a dictionary's text is refused.
    pub(crate) fn of_text(fault: RowsFault) -> Refusal
        ensures { kind_of result ≡ text_refusal fault }
    {
        match fault {
            RowsFault::Bad { line, cause } => Refusal::WrongText { line, cause },
            RowsFault::NoMemory => Refusal::NoMemory,
        }
    }

    /// Why the bytes of an image are refused.
    pub(crate) fn of_image(fault: ImageFault) -> Refusal
        ensures { kind_of result ≡ image_refusal fault }
    {
        Refusal::WrongImage { place: fault.place }
    }

    /// The status that tells it.
    pub(crate) fn status(self) -> u8
        ensures { result ≡ refusal_status (kind_of self) }
    {
        match self {
            Refusal::WrongText { .. } => status::WRONG_SYSTEM,
            Refusal::WrongImage { .. } => status::WRONG_SYSTEM,
            Refusal::SourceFailed => status::SOURCE_FAILED,
            Refusal::NoMemory => status::NO_MEMORY,
        }
    }

    /// The one line that is written. It takes no memory.
    pub(crate) fn refusal_line(self) -> ArrayString<40>
        ensures { result.bytes ≡ refusal_line (kind_of self) }
    {
        match self {
            Refusal::WrongText { line, cause } => text_line(line, row_word(cause)),
            Refusal::WrongImage { place } => place_line(place),
            Refusal::SourceFailed => word_line("source"),
            Refusal::NoMemory => word_line("memory"),
        }
    }
}

/// A word alone.
fn word_line(word: &str) -> ArrayString<40>
    requires { length word.now ≤ 10 }
    ensures { result.bytes ≡ with_line_feed word.now }
{
    let mut line = ArrayString::new();
    line.push_str(word);
    line.push_str("\n");
    line
}

/// The faulty line of a dictionary's text, and the word of its cause.
fn text_line(number: u32, word: &str) -> ArrayString<40>
    requires { length word.now ≤ 10 }
    ensures { result.bytes ≡ fault_line (codes "system") number word.now }
{
    let mut digits = Buffer::new();
    let mut line = ArrayString::new();
    line.push_str("system ");
    line.push_str(digits.format(number));
    line.push_str(" ");
    line.push_str(word);
    line.push_str("\n");
    line
}

/// The faulty place of an image.
fn place_line(place: u64) -> ArrayString<40>
    ensures { result.bytes ≡ refusal_line (spec.WrongImage place) }
{
    let mut digits = Buffer::new();
    let mut line = ArrayString::new();
    line.push_str("system image ");
    line.push_str(digits.format(place));
    line.push_str("\n");
    line
}

/// The word of a fault of a dictionary's text.
fn row_word(cause: RowCause) -> &'static str
    ensures word { result.now ≡ row_cause_word (row.cause_of cause) }
    ensures short { length result.now ≤ 10 }
{
    match cause {
        RowCause::Size => "size",
        RowCause::Phrase => "phrase",
        RowCause::Frequency => "frequency",
        RowCause::Syllable => "syllable",
        RowCause::Lengths => "lengths",
        RowCause::Twice => "twice",
        RowCause::Rows => "rows",
    }
}
