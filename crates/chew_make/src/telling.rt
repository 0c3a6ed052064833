ghost use Rattle.std.specs.Prelude.{◌≡◌, is_err};
ghost use Rattle.chew_spec_program.specs.Answer.{Tells};
ghost use Rattle.chew_spec_program.specs.Refusal as spec;
ghost use Rattle.chew_spec_program.specs.Writing.{Writes, sunk};
ghost use Rattle.chew_make.specs.Answers.{answer_of};

use chew_commands::status;
use chew_outside::{Failed, Sink, write_all};
use chew_syllable::NoMemory;

/// Writes an answer, or that memory was wanting, and answers the status.
pub(crate) fn tell<O: Sink>(sink: &mut O, answer: Result<Vec<u8>, NoMemory>) -> u8
    ensures { Tells (answer_of answer) (sunk (O.taken sink.old) (O.taken sink.new) (O.faults sink.old) (O.faults sink.new)) result }
{
    match answer {
        Ok(text) => match send(sink, text.as_slice()) {
            Ok(()) => status::DONE,
            Err(Failed) => status::SINK_FAILED,
        },
        Err(NoMemory) => {
            // the status stays where the line isn't written
            let _ = send(sink, no_memory_line().as_bytes());
            status::NO_MEMORY
        }
    }
}

/// The line where memory was wanting.
fn no_memory_line() -> &'static str
    ensures { result.now ≡ spec.refusal_line spec.NoMemory }
{
    "memory\n"
}

/// Writes the bytes; a sink that fails took less than all.
fn send<O: Sink>(sink: &mut O, bytes: &[u8]) -> Result<(), Failed>
    ensures { Writes (sunk (O.taken sink.old) (O.taken sink.new) (O.faults sink.old) (O.faults sink.new)) bytes.now (is_err result) }
{
    write_all(sink, bytes)
}
