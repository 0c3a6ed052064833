ghost use Rattle.std.specs.Prelude.{◌≡◌, ◌∷◌, [], IfSome, IfNone};
ghost use Rattle.chew_spec_text.specs.Lines.{lines_of, without_return};

use crate::cut::cut_at;
use std::marker::Model;

/// The lines of a text that are left to read. Line feeds part them, and what stands behind the last one is a line too; a
/// carriage return at a line's end is dropped, one only.
#[derive(Drop)]
pub struct Lines<'a> {
    rest: &'a [u8],
    /// All lines are read.
    ended: bool,
}

impl<'a> Model for Lines<'a> {
    ghost use Rattle.std.specs.Prelude.{List, ℕ};
    ghost use Rattle.chew_text.specs.LinesLeft.{lines_left};

    ghost Value = { List (List ℕ) };

    ghost view = { λ lines. lines_left lines.ended lines.rest.now };
}

impl<'a> Lines<'a> {
    /// All lines of a text.
    pub fn of(text: &'a [u8]) -> Lines<'a>
        ensures { result ≡ lines_of text.now }
    {
        Lines {
            rest: text,
            ended: false,
        }
    }

    /// The next line; `None` where all are read.
    pub fn next_line(&mut self) -> Option<&'a [u8]>
        ensures some { IfSome result (λ line. self.old ≡ line.now ∷ self.new) }
        ensures none { IfNone result (self.old ≡ []) }
    {
        if self.ended {
            return None;
        }
        let rest = self.rest;
        match cut_at(rest, b'\n') {
            Some((line, behind)) => {
                self.rest = behind;
                Some(without_return(line))
            }
            None => {
                self.ended = true;
                Some(without_return(rest))
            }
        }
    }
}

/// The line without the carriage return at its end.
fn without_return(line: &[u8]) -> &[u8]
    ensures { result.now ≡ without_return line.now }
{
    if line.ends_with(b"\r") {
        &line[..line.len() - 1]
    } else {
        line
    }
}
