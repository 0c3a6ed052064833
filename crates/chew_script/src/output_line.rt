ghost use Rattle.std.specs.Prelude.{◌≡◌, ◌+◌, ◌<◌, ◌++◌, decimal, length, vec_capacity, vec_len, IfOk, OnErr};
ghost use Rattle.chew_spec_text.specs.Line.{line_text};

use crate::note::{Note, note_text};
use crate::text::Text;
use chew_syllable::NoMemory;
use chew_text::append_fields;
use itoa::Buffer;
use std::alloc::Global;
use std::marker::Model;

/// What is shown once a key was handled.
#[derive(Debug, Drop)]
pub struct Line {
    /// The text of all cells.
    pub preedit: Text,
    /// The columns that the text before the cursor takes.
    pub column: u32,
    /// What the layout holds.
    pub held: Text,
    /// The text that this key committed.
    pub commit: Text,
    /// The window of candidates; empty where there is none.
    pub window: Text,
    /// What is told of the key besides.
    pub note: Note,
}

impl Model for Line {
    ghost use Rattle.chew_spec_text.specs.Line as spec;
    ghost use Rattle.chew_script.specs.Notes.{note_of};

    ghost Value = { spec.Line };

    ghost view = { λ line. record {
      preedit = line.preedit;
      column = line.column;
      held = line.held;
      commit = line.commit;
      window = line.window;
      note = note_of line.note;
    } };
}

/// The line as it is printed: its fields parted by TAB, and a line feed at its end. Only want of memory is told, as
/// `NoMemory`.
pub fn print_line(alloc: Global, line: &Line) -> Result<Text, NoMemory>
    ensures { IfOk result (λ text. text ≡ line_text line.now) }
{
    let mut text = Vec::new(alloc);
    append_line(&mut text, line)?;
    Ok(Text::of(text))
}

/// Appends the line as it is printed, whole or not at all. It is refused, as `NoMemory`, only where the text has no room
/// for it.
pub fn append_line(text: &mut Vec<u8>, line: &Line) -> Result<(), NoMemory>
    ensures ok { IfOk result (λ _. text.new.items ≡ text.old.items ++ line_text line.now) }
    ensures err { OnErr result (text.new.items ≡ text.old.items) }
    ensures room { OnErr result (vec_capacity text.old < vec_len text.old + length (line_text line.now)) }
{
    append_with_column(text, line, Buffer::new().format(line.column).as_bytes())
}

/// Appends the line, whose column these digits write, whole or not at all.
#[tactic(auto, unfolding(chew_spec_text::specs::Line::line_text))]
fn append_with_column<'a>(
    text: &mut Vec<u8>,
    line: &'a Line,
    column: &'a [u8],
) -> Result<(), NoMemory>
    requires { column.now ≡ decimal line.now.column }
    ensures ok { IfOk result (λ _. text.new.items ≡ text.old.items ++ line_text line.now) }
    ensures err { OnErr result (text.new.items ≡ text.old.items) }
    ensures room { OnErr result (vec_capacity text.old < vec_len text.old + length (line_text line.now)) }
{
    append_fields(
        text,
        &[
            (line.preedit.bytes(), b'\t'),
            (column, b'\t'),
            (line.held.bytes(), b'\t'),
            (line.commit.bytes(), b'\t'),
            (line.window.bytes(), b'\t'),
            (note_text(&line.note), b'\n'),
        ],
    )
}
