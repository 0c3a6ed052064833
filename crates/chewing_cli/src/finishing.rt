ghost use Rattle.std.specs.Prelude.{◌≡◌, ◌≤◌, ◌||◌, drop, false, length, map};
ghost use Rattle.std.specs.List.{list_any};
ghost use Rattle.chew_spec_session.specs.LastRounds.{is_disk_fault};
ghost use Rattle.chew_spec_program.specs.Output.{rounds_from, traced};
ghost use Rattle.chew_spec_program.specs.Run.{Prints, done_status, is_spent};
ghost use Rattle.chew_spec_program.specs.Writing.{sunk};
ghost use Rattle.chew_plain.specs.Call.{entry_of};
ghost use Rattle.chew_checkpoint.specs.Answers.{round_of};
ghost use Rattle.chew_session.specs.Answers.{ended_of as session_of};
ghost use Rattle.chewing_cli.specs.RunEnd.{ended_of};
ghost use Rattle.chewing_cli.specs.PrintedLines.{Finishes, PrintsEntries};
ghost use Rattle.chewing_cli.specs.Traces.{was_cut, was_failed};

use crate::done::Done;
use crate::sending::{send_contexts, send_rounds};
use crate::tracing::{TraceFault, send_trace};
use arrayvec::ArrayVec;
use chew_checkpoint::Round;
use chew_commands::status;
use chew_outside::{Failed, Sink};
use chew_plain::Entry;
use chew_script::CONTEXTS_LIMIT;
use chew_session::{ContextEnd, Ended};
use std::alloc::Global;

/// Writes what a session printed, its rounds, and where the trace is asked for its calls; and ends the run.
pub(crate) fn finish<O: Sink>(alloc: Global, trace: bool, ended: Ended, sink: &mut O) -> Done
    requires last { ended.last_from ≤ length ended.rounds.items }
    ensures { Finishes trace (session_of ended) (sunk (O.taken sink.old) (O.taken sink.new) (O.faults sink.old) (O.faults sink.new)) (ended_of result) }
{
    let shown = show(alloc, trace, &ended, sink);
    let last = last_rounds(&ended);
    let status = status_of(shown, ended.memory, last);
    let ends = ended.contexts.as_slice();
    let handled = counts_of(ends);
    let Ended {
        journal,
        contexts: _,
        rounds,
        last_from,
        memory: _,
    } = ended;
    Done {
        status,
        journal,
        handled,
        rounds,
        last_from,
    }
}

/// Writes the lines of the contexts, then those of the rounds, then those of the calls where the trace is asked for.
fn show<O: Sink>(alloc: Global, trace: bool, ended: &Ended, sink: &mut O) -> Result<(), TraceFault>
    ensures { Prints trace (session_of ended.now) (sunk (O.taken sink.old) (O.taken sink.new) (O.faults sink.old) (O.faults sink.new))
        (was_failed result) (was_cut result) }
{
    let ends = ended.contexts.as_slice();
    match send_contexts(sink, 1, ends) {
        Ok(()) => show_rounds(alloc, trace, ended, sink),
        Err(Failed) => Err(TraceFault::SinkFailed),
    }
}

/// Writes the lines of the rounds, then those of the calls where the trace is asked for.
fn show_rounds<O: Sink>(
    alloc: Global,
    trace: bool,
    ended: &Ended,
    sink: &mut O,
) -> Result<(), TraceFault>
    ensures { PrintsEntries (rounds_from 1 (map round_of ended.now.rounds.items)) (traced trace (map entry_of ended.now.journal.items))
        (sunk (O.taken sink.old) (O.taken sink.new) (O.faults sink.old) (O.faults sink.new)) (was_failed result) (was_cut result) }
{
    let rounds = ended.rounds.as_slice();
    let journal = ended.journal.as_slice();
    match send_rounds(sink, 1, rounds) {
        Ok(()) => send_trace(alloc, sink, traced(trace, journal)),
        Err(Failed) => Err(TraceFault::SinkFailed),
    }
}

/// The calls whose lines are written: all where the trace is asked for, else none.
fn traced(trace: bool, journal: &[Entry]) -> &[Entry]
    ensures { map entry_of result.now ≡ traced trace (map entry_of journal.now) }
{
    if trace { journal } else { &[] }
}

/// The rounds that followed the contexts.
fn last_rounds(ended: &Ended) -> &[Round]
    requires { ended.now.last_from ≤ length ended.now.rounds.items }
    ensures { result.now ≡ drop ended.now.last_from ended.now.rounds.items }
{
    let (_, last) = ended.rounds.as_slice().split_at(ended.last_from as usize);
    last
}

/// How many keys each context handled.
fn counts_of(ends: &[ContextEnd]) -> ArrayVec<u32, CONTEXTS_LIMIT>
    requires { length ends.now ≤ 16 }
    ensures { result.items ≡ map (λ end. end.handled) ends.now }
{
    let mut counts = ArrayVec::new();
    for end in ends {
        counts.push(end.handled);
    }
    counts
}

/// The status of a run that is not refused, by how its output was written, and by whether memory was wanting before.
fn status_of(shown: Result<(), TraceFault>, memory: bool, last: &[Round]) -> u8
    ensures { result ≡ done_status (was_failed shown) (memory || was_cut shown) (map round_of last.now) }
{
    match shown {
        Ok(()) => written_status(memory, last),
        Err(TraceFault::NoMemory) => status::NO_MEMORY,
        Err(TraceFault::SinkFailed) => status::SINK_FAILED,
    }
}

/// The status of a run whose whole output was written.
fn written_status(memory: bool, last: &[Round]) -> u8
    ensures { result ≡ done_status false memory (map round_of last.now) }
{
    if memory {
        return status::NO_MEMORY;
    }
    if has_disk_fault(last) {
        return status::DISK_FAILED;
    }
    if has_spent(last) {
        return status::SEQ_SPENT;
    }
    status::DONE
}

/// Whether the disk failed in one of these rounds.
fn has_disk_fault(rounds: &[Round]) -> bool
    ensures { result ≡ list_any is_disk_fault (map round_of rounds.now) }
{
    match rounds {
        [] => false,
        [round, rest @ ..] => match round {
            Round::DiskFault { step: _ } => true,
            Round::Saved(_) => has_disk_fault(rest),
            Round::NoMemory => has_disk_fault(rest),
            Round::SeqSpent { seq: _ } => has_disk_fault(rest),
        },
    }
}

/// Whether one of these rounds found the seq spent.
fn has_spent(rounds: &[Round]) -> bool
    ensures { result ≡ list_any is_spent (map round_of rounds.now) }
{
    match rounds {
        [] => false,
        [round, rest @ ..] => match round {
            Round::SeqSpent { seq: _ } => true,
            Round::Saved(_) => has_spent(rest),
            Round::DiskFault { step: _ } => has_spent(rest),
            Round::NoMemory => has_spent(rest),
        },
    }
}
