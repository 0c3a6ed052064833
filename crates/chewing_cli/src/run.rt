ghost use Rattle.std.specs.Prelude.{◌≡◌, ◌+◌, ◌∷◌, ◌≤◌, [], IfOk, length, map, true};
ghost use Rattle.std.specs.List.{range_with_len};
ghost use Rattle.chew_spec_disk.specs.Disk.{Later};
ghost use Rattle.chew_spec_cell.specs.Pass.{fresh_pass, new_passes};
ghost use Rattle.chew_spec_rounds.specs.InStep.{IsInStep};
ghost use Rattle.chew_spec_rounds.specs.Session.{IsSession as NeverLoses};
ghost use Rattle.chew_spec_session.specs.LastRounds.{disk_faults};
ghost use Rattle.chew_spec_session.specs.Session.{IsSession, RoseBy};
ghost use Rattle.chew_spec_program.specs.Slots.{kept};
ghost use Rattle.chew_spec_program.specs.Writing.{sunk};
ghost use Rattle.chew_plain.specs.Call.{entry_of};
ghost use Rattle.chew_checkpoint.specs.Answers.{round_of};
ghost use Rattle.chew_session.specs.Answers.{ended_of as session_of};
ghost use Rattle.chew_session.specs.Crew.{MayType, basis_of, keys_of_all};
ghost use Rattle.chew_session.specs.Saving.{IsUntouched};
ghost use Rattle.chewing_cli.specs.RunEnd.{ended_of};
ghost use Rattle.chewing_cli.specs.Opens.{inputs_of, rows_of};
ghost use Rattle.chewing_cli.specs.Runs.{EndsOpened, MayRun};

use crate::done::Done;
use crate::finishing::finish;
use crate::opening::Opened;
use crate::refusal::Refusal;
use crate::sending::refuse;
use crate::system::System;
use chew_checkpoint::Checkpointer;
use chew_outside::{Disk, Gate, Sink};
use chew_script::Contexts;
use chew_session::{Actor, Ended, run_actors};
use chew_settings::Settings;
use chew_shared::{Opened as Seats, Shared};
use chew_slots::Found;
use chew_syllable::NoMemory;
use chew_trie_read::Trie;
use std::alloc::Global;
use std::sync::Wait;
use std::thread::Threads;

/// Runs the script's contexts at once over the user's dictionary, with a worker that saves it, and writes their lines.
pub(crate) fn run_opened<R: Wait + Threads + Sync, O: Sink, D: Disk, G: Gate>(
    alloc: Global,
    rt: &R,
    trace: bool,
    opened: Opened,
    sink: &mut O,
    disk: &mut D,
    gate: &G,
) -> Done
    requires limits { MayRun (inputs_of opened) }
    ensures told { D.told disk.new ≡ D.told disk.old }
    ensures ends { EndsOpened (inputs_of opened) trace opened.found.keep (sunk (O.taken sink.old) (O.taken sink.new) (O.faults sink.old) (O.faults sink.new))
        (kept (D.told disk.old) (D.state disk.old) (D.state disk.new) (D.faults disk.old) (D.faults disk.new)) (ended_of result) }
{
    let Opened {
        settings,
        system,
        script,
        found,
    } = opened;
    let rounds = script.rounds;
    let actors = match actors_of(alloc, script.contexts) {
        Ok(actors) => actors,
        Err(NoMemory) => return refuse(alloc, Refusal::NoMemory, sink),
    };
    let Found { map, life, keep } = found;
    let seats = match share(alloc, map, life, &settings, actors.as_slice()) {
        Ok(seats) => seats,
        Err(NoMemory) => return refuse(alloc, Refusal::NoMemory, sink),
    };
    let checkpointer = Checkpointer::of(keep);
    let ended = run_session(
        alloc,
        rt,
        &system,
        &settings,
        actors,
        rounds,
        seats,
        checkpointer,
        disk,
        gate,
    );
    finish(alloc, trace, ended, sink)
}

/// Shares what was recovered between the contexts and the worker, which adds pairs up to the settings' number of them.
fn share(
    alloc: Global,
    base: Trie,
    life: u64,
    settings: &Settings,
    actors: &[Actor],
) -> Result<Seats, NoMemory>
    requires contexts { length actors.now ≤ 16 }
    requires few { length base ≤ 200_000 }
    requires cap { settings.now.cap ≤ 200_000 }
    ensures start { IfOk result (λ seats. seats.shared.start ≡ record { pairs = base; life = life; cap = settings.now.cap }) }
    ensures seats { IfOk result (λ seats. seats.shared.seats ≡ length actors.now + 1) }
    ensures keeper { IfOk result (λ seats. seats.keeper ≡ fresh_pass seats.shared 0) }
    ensures passes { IfOk result (λ seats. seats.keeper ∷ seats.passes.items ≡ new_passes seats.shared (length actors.now + 1)) }
{
    Shared::open(alloc, base, life, settings.cap, actors.len() as u32)
}

/// The session of contexts over a system of either kind.
fn run_session<R: Wait + Threads + Sync, D: Disk, G: Gate>(
    alloc: Global,
    rt: &R,
    system: &System,
    settings: &Settings,
    actors: Vec<Actor>,
    rounds: u32,
    seats: Seats,
    checkpointer: Checkpointer,
    disk: &mut D,
    gate: &G,
) -> Ended
    requires contexts { length actors.items ≤ 16 }
    requires typing { MayType seats.shared settings.now actors.items }
    requires rounds { rounds ≤ 64 }
    requires keeper { seats.keeper ≡ fresh_pass seats.shared 0 }
    requires passes { seats.keeper ∷ seats.passes.items ≡ new_passes seats.shared (length actors.items + 1) }
    requires seats { seats.shared.seats ≡ length actors.items + 1 }
    ensures session { IsSession (basis_of (rows_of system.now) settings.now seats.shared)
        (keys_of_all actors.items) rounds checkpointer.seq (session_of result) }
    ensures told { D.told disk.new ≡ D.told disk.old }
    ensures later { D.told disk.old ≡ true → Later (D.state disk.old) (D.state disk.new) }
    ensures faults { RoseBy (disk_faults (map round_of result.rounds.items)) (D.faults disk.old) (D.faults disk.new) }
    ensures calm { disk_faults (map round_of result.rounds.items) ≡ 0 → D.faults disk.new ≡ D.faults disk.old }
    ensures crash { D.told disk.old ≡ true → IsInStep checkpointer (D.state disk.old) seats.shared.start []
        → NeverLoses seats.shared.start (map entry_of result.journal.items) (D.state disk.old).moment (D.state disk.new) (map round_of result.rounds.items) }
    ensures untouched { map round_of result.rounds.items ≡ [] → IsUntouched (D.state disk.old) (D.state disk.new) }
{
    match system {
        System::Text(rows) => run_actors(
            alloc,
            rt,
            rows,
            settings,
            actors,
            rounds,
            seats,
            checkpointer,
            disk,
            gate,
        ),
        System::Image(trie) => run_actors(
            alloc,
            rt,
            trie,
            settings,
            actors,
            rounds,
            seats,
            checkpointer,
            disk,
            gate,
        ),
    }
}

/// A context for each list of keys, numbered from 1.
fn actors_of(alloc: Global, contexts: Contexts) -> Result<Vec<Actor>, NoMemory>
    requires { length contexts ≤ 16 }
    ensures keys { IfOk result (λ actors. keys_of_all actors.items ≡ contexts) }
    ensures order { IfOk result (λ actors. map (λ actor. actor.who) actors.items ≡ range_with_len 1 (length actors.items)) }
{
    let mut actors = Vec::new(alloc);
    let mut who = 0;
    for keys in contexts.into_vec() {
        who += 1;
        actors.push(Actor { who, keys })?;
    }
    Ok(actors)
}
