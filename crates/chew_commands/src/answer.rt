ghost use Rattle.std.specs.Prelude.{is_err};
ghost use Rattle.chew_spec_program.specs.Answer.{Tells};
ghost use Rattle.chew_spec_program.specs.Reading.{watched};
ghost use Rattle.chew_spec_program.specs.Writing.{Writes, sunk};
ghost use Rattle.chew_commands.specs.Outcome.{GivesOrNoMemory, itself};
ghost use Rattle.chew_commands.specs.Refusals.{outcome_of};

use crate::refusal::Refusal;
use crate::status;
use chew_outside::{Failed, Sink, Source, read_up_to, write_all};
use chew_rows::SYSTEM_LIMIT;
use std::alloc::Global;

/// Reads an input, up to a byte past 64 MiB.
pub(crate) fn read_input<I: Source>(alloc: Global, from: &mut I) -> Result<Vec<u8>, Refusal>
    ensures { GivesOrNoMemory itself (watched (I.left from.old) (I.left from.new) (I.faults from.old) (I.faults from.new))
        (outcome_of (λ bytes. bytes.items) result) }
{
    match read_up_to(alloc, from, SYSTEM_LIMIT) {
        Ok(text) => Ok(text),
        Err(fault) => Err(Refusal::of_read(fault)),
    }
}

/// Writes an answer, or the line of a refusal, and answers the status.
pub(crate) fn tell<O: Sink>(sink: &mut O, answer: Result<Vec<u8>, Refusal>) -> u8
    ensures { Tells (outcome_of (λ bytes. bytes.items) answer) (sunk (O.taken sink.old) (O.taken sink.new) (O.faults sink.old) (O.faults sink.new)) result }
{
    match answer {
        Ok(text) => match send(sink, text.as_slice()) {
            Ok(()) => status::DONE,
            Err(Failed) => status::SINK_FAILED,
        },
        Err(refusal) => {
            // the status of a refusal stays where its line isn't written
            let _ = send(sink, refusal.refusal_line().as_bytes());
            refusal.status()
        }
    }
}

/// Writes the bytes; a sink that fails took less than all.
fn send<O: Sink>(sink: &mut O, bytes: &[u8]) -> Result<(), Failed>
    ensures { Writes (sunk (O.taken sink.old) (O.taken sink.new) (O.faults sink.old) (O.faults sink.new)) bytes.now (is_err result) }
{
    write_all(sink, bytes)
}
