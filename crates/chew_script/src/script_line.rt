ghost use Rattle.std.specs.Prelude.{◌≡◌, IfOk};
ghost use Rattle.std.specs.List.{list_all};
ghost use Rattle.chew_spec_text.specs.KeyStroke as spec;
ghost use Rattle.chew_spec_text.specs.Script.{key_line_of, script_line};
ghost use Rattle.chew_script.specs.Lines.{HasNumber, line_says};

use crate::fault::ScriptCause;
use crate::names::context_number;
use chew_text::{cut_at, is_number};

/// What a line of a script says.
#[derive(Clone, Copy)]
pub(crate) enum ScriptLine<'a> {
    /// Nothing: it is empty or a comment.
    Nothing,
    Round,
    /// The keys that the text names, for the context of this number.
    Keys(u8, &'a [u8]),
}

/// What a line says; its keys aren't read yet.
pub(crate) fn script_line(line: &[u8]) -> Result<ScriptLine<'_>, ScriptCause>
    ensures says { line_says result ≡ script_line line.now }
    ensures number { IfOk result HasNumber }
{
    if line.is_empty() {
        return Ok(ScriptLine::Nothing);
    }
    if line.starts_with(b"#") {
        return Ok(ScriptLine::Nothing);
    }
    if !is_printable(line) {
        return Err(ScriptCause::Byte);
    }
    if line == b"round".as_slice() {
        return Ok(ScriptLine::Round);
    }
    key_line(line)
}

/// What a line says that is neither empty, nor a comment, nor `round`.
fn key_line(line: &[u8]) -> Result<ScriptLine<'_>, ScriptCause>
    ensures says { line_says result ≡ key_line_of line.now }
    ensures number { IfOk result HasNumber }
{
    match cut_at(line, b':') {
        Some((digits, keys)) => {
            if !is_number(digits) {
                return Err(ScriptCause::Form);
            }
            match context_number(digits) {
                Some(number) => Ok(ScriptLine::Keys(number, keys)),
                None => Err(ScriptCause::Context),
            }
        }
        None => Err(ScriptCause::Form),
    }
}

/// Whether all bytes are printable ASCII.
fn is_printable(line: &[u8]) -> bool
    ensures { result ≡ list_all spec.is_printable line.now }
{
    line.iter().all(|byte| matches!(*byte, b' '..=b'~'))
}
