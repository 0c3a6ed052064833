ghost use Rattle.std.specs.Prelude.{◌≡◌, ◌+◌, ◌++◌, ◌≤◌, is_err, length, map};
ghost use Rattle.chew_spec_program.specs.Output.{answer_words, contexts_from, header, round_line, rounds_from};
ghost use Rattle.chew_spec_program.specs.Run.{IsRefused};
ghost use Rattle.chew_spec_program.specs.Writing.{Writes, sunk};
ghost use Rattle.chew_checkpoint.specs.Answers.{round_of};
ghost use Rattle.chewing_cli.specs.RunEnd.{ended_of};
ghost use Rattle.chewing_cli.specs.Refusals.{kind_of};

use crate::done::Done;
use crate::refusal::Refusal;
use arrayvec::{ArrayString, ArrayVec};
use chew_checkpoint::Round;
use chew_outside::{Failed, Sink, write_all};
use chew_session::ContextEnd;
use itoa::Buffer;
use std::alloc::Global;

/// Writes the bytes; a sink that fails took less than all.
pub(crate) fn send<O: Sink>(sink: &mut O, bytes: &[u8]) -> Result<(), Failed>
    ensures { Writes (sunk (O.taken sink.old) (O.taken sink.new) (O.faults sink.old) (O.faults sink.new)) bytes.now (is_err result) }
{
    write_all(sink, bytes)
}

/// The line before a context's lines. It takes no memory.
fn header(number: u32) -> ArrayString<32>
    ensures { result.bytes ≡ header number }
{
    let mut digits = Buffer::new();
    let mut line = ArrayString::new();
    line.push_str("context ");
    line.push_str(digits.format(number));
    line.push_str("\n");
    line
}

/// Writes the lines of a context.
fn send_lines<O: Sink>(sink: &mut O, end: &ContextEnd) -> Result<(), Failed>
    ensures { Writes (sunk (O.taken sink.old) (O.taken sink.new) (O.faults sink.old) (O.faults sink.new)) end.now.bytes (is_err result) }
{
    send(sink, end.bytes.bytes())
}

/// Writes the header and the lines of a context, up to the first write that fails.
fn send_context<O: Sink>(sink: &mut O, number: u32, end: &ContextEnd) -> Result<(), Failed>
    ensures { Writes (sunk (O.taken sink.old) (O.taken sink.new) (O.faults sink.old) (O.faults sink.new)) (header number ++ end.now.bytes) (is_err result) }
{
    send(sink, header(number).as_bytes())?;
    send_lines(sink, end)
}

/// Writes the header and the lines of each context, numbered from this one, up to the first write that fails.
pub(crate) fn send_contexts<O: Sink>(
    sink: &mut O,
    number: u32,
    ends: &[ContextEnd],
) -> Result<(), Failed>
    requires { number + length ends.now ≤ 17 }
    ensures { Writes (sunk (O.taken sink.old) (O.taken sink.new) (O.faults sink.old) (O.faults sink.new))
        (contexts_from number (map (λ end. end.bytes) ends.now)) (is_err result) }
{
    match ends {
        [] => Ok(()),
        [end, rest @ ..] => {
            send_context(sink, number, end)?;
            send_contexts(sink, number + 1, rest)
        }
    }
}

/// What a round answered, in words.
fn answer_words(round: &Round) -> ArrayString<32>
    ensures { result.bytes ≡ answer_words (round_of round.now) }
{
    let mut digits = Buffer::new();
    let mut words = ArrayString::new();
    match round {
        Round::Saved(number) => {
            words.push_str("saved ");
            words.push_str(digits.format(*number));
        }
        Round::DiskFault { step } => {
            words.push_str("disk fault ");
            words.push_str(digits.format(*step));
        }
        Round::NoMemory => words.push_str("no memory"),
        Round::SeqSpent { .. } => words.push_str("seq spent"),
    }
    words
}

/// The line of a round. It takes no memory.
fn round_line(number: u32, round: &Round) -> ArrayString<64>
    ensures { result.bytes ≡ round_line number (round_of round.now) }
{
    let words = answer_words(round);
    let mut digits = Buffer::new();
    let mut line = ArrayString::new();
    line.push_str("round ");
    line.push_str(digits.format(number));
    line.push_str(" ");
    line.push_str(words.as_str());
    line.push_str("\n");
    line
}

/// Writes the line of a round.
fn send_round<O: Sink>(sink: &mut O, number: u32, round: &Round) -> Result<(), Failed>
    ensures { Writes (sunk (O.taken sink.old) (O.taken sink.new) (O.faults sink.old) (O.faults sink.new))
        (round_line number (round_of round.now)) (is_err result) }
{
    send(sink, round_line(number, round).as_bytes())
}

/// Writes a line for each round, numbered from this one, up to the first write that fails.
pub(crate) fn send_rounds<O: Sink>(
    sink: &mut O,
    number: u32,
    rounds: &[Round],
) -> Result<(), Failed>
    requires { number + length rounds.now ≤ 67 }
    ensures { Writes (sunk (O.taken sink.old) (O.taken sink.new) (O.faults sink.old) (O.faults sink.new))
        (rounds_from number (map round_of rounds.now)) (is_err result) }
{
    match rounds {
        [] => Ok(()),
        [round, rest @ ..] => {
            send_round(sink, number, round)?;
            send_rounds(sink, number + 1, rest)
        }
    }
}

/// Ends a run before its first key: writes the refusal's line.
pub(crate) fn refuse<O: Sink>(alloc: Global, refusal: Refusal, sink: &mut O) -> Done
    ensures { IsRefused (kind_of refusal) (sunk (O.taken sink.old) (O.taken sink.new) (O.faults sink.old) (O.faults sink.new)) (ended_of result) }
{
    // the status of a refusal stays where its line isn't written
    let _ = send(sink, refusal.refusal_line().as_bytes());
    Done {
        status: refusal.status(),
        journal: Vec::new(alloc),
        handled: ArrayVec::new(),
        rounds: ArrayVec::new(),
        last_from: 0,
    }
}
