ghost use Rattle.std.specs.Prelude.{◌≡◌, ◌⊎◌, ◌↔◌, [], ◌∷◌, Contains, false, map};
ghost use Rattle.chew_spec_outside.specs.Faults.{Rose};
ghost use Rattle.chew_spec_program.specs.Command.{is_run_command};
ghost use Rattle.chew_spec_program.specs.Reading.{watched};
ghost use Rattle.chew_spec_program.specs.Slots.{kept};
ghost use Rattle.chew_spec_program.specs.Writing.{sunk};
ghost use Rattle.chewing_cli.specs.RunEnd.{ended_of};
ghost use Rattle.chewing_cli.specs.Runs.{IsKeptRun};

use crate::done::Done;
use crate::opening::open;
use crate::run::run_opened;
use crate::sending::refuse;
use crate::words::asks_trace;
use chew_outside::{Disk, Gate, Sink, Source};
use std::alloc::Global;
use std::sync::Wait;
use std::thread::Threads;

/// Runs the program on its words: reads the settings where the words name them, the system and the script, recovers the user's
/// dictionary from the slots of the disk, and runs the script's contexts at once, while a worker saves what they learn. The lines
/// of the handled keys are written, then a line for each round, then the trace of all calls where the words ask for it. Where
/// something is refused, one line is written, and the disk isn't.
pub fn chewing<
    R: Wait + Threads + Sync,
    S: Source,
    I: Source,
    Y: Source,
    O: Sink,
    D: Disk,
    G: Gate,
>(
    alloc: Global,
    rt: &R,
    words: &[&str],
    settings: &mut S,
    system: &mut Y,
    script: &mut I,
    sink: &mut O,
    disk: &mut D,
    gate: &G,
) -> Done
    ensures told { D.told disk.new ≡ D.told disk.old }
    ensures run { IsKeptRun (map (λ word. word.now) words.now)
        (record {
          settings = watched (S.left settings.old) (S.left settings.new) (S.faults settings.old) (S.faults settings.new);
          system = watched (Y.left system.old) (Y.left system.new) (Y.faults system.old) (Y.faults system.new);
          script = watched (I.left script.old) (I.left script.new) (I.faults script.old) (I.faults script.new);
          sink = sunk (O.taken sink.old) (O.taken sink.new) (O.faults sink.old) (O.faults sink.new);
          disk = kept (D.told disk.old) (D.state disk.old) (D.state disk.new) (D.faults disk.old) (D.faults disk.new);
        })
        (ended_of result) }
    ensures words { (result.status ≡ 2) ↔ (is_run_command (map (λ word. word.now) words.now) ≡ false) }
    ensures source { result.status ≡ 7 → Rose (S.faults settings.old) (S.faults settings.new)
        ⊎ (Rose (Y.faults system.old) (Y.faults system.new) ⊎ Rose (I.faults script.old) (I.faults script.new)) }
    ensures sink { result.status ≡ 8 → Rose (O.faults sink.old) (O.faults sink.new) }
    ensures disk { result.status ≡ 9 → Rose (D.faults disk.old) (D.faults disk.new) }
    ensures statuses { Contains (0 ∷ 2 ∷ 3 ∷ 4 ∷ 5 ∷ 6 ∷ 7 ∷ 8 ∷ 9 ∷ 10 ∷ 11 ∷ []) result.status }
{
    match open(alloc, words, settings, system, script, disk) {
        Ok(opened) => run_opened(alloc, rt, asks_trace(words), opened, sink, disk, gate),
        Err(refusal) => refuse(alloc, refusal, sink),
    }
}
