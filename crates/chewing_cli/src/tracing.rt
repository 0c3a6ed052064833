ghost use Rattle.std.specs.Prelude.{[], map};
ghost use Rattle.chew_spec_program.specs.Writing.{sunk};
ghost use Rattle.chew_plain.specs.Call.{entry_of};
ghost use Rattle.chewing_cli.specs.PrintedLines.{PrintsEntries};
ghost use Rattle.chewing_cli.specs.Traces.{was_cut, was_failed};

use crate::sending::send;
use chew_outside::{Failed, Sink};
use chew_plain::Entry;
use chew_script::append_entry;
use chew_syllable::NoMemory;
use std::alloc::Global;

/// Why a trace ends early.
#[derive(Clone, Copy, Debug, PartialEq, Eq)]
pub(crate) enum TraceFault {
    /// The sink failed.
    SinkFailed,
    /// Memory was wanting for a line.
    NoMemory,
}

/// Writes a line for each entry, up to the first write that fails, or to the first line that there is no memory for.
pub(crate) fn send_trace<O: Sink>(
    alloc: Global,
    sink: &mut O,
    entries: &[Entry],
) -> Result<(), TraceFault>
    ensures { PrintsEntries [] (map entry_of entries.now)
        (sunk (O.taken sink.old) (O.taken sink.new) (O.faults sink.old) (O.faults sink.new)) (was_failed result) (was_cut result) }
{
    let mut line = Vec::new(alloc);
    'entries: for entry in entries {
        line.clear();
        match append_entry(&mut line, entry) {
            Ok(()) => match send(sink, line.as_slice()) {
                Ok(()) => {}
                Err(Failed) => return Err(TraceFault::SinkFailed),
            },
            Err(NoMemory) => return Err(TraceFault::NoMemory),
        }
    }
    Ok(())
}
