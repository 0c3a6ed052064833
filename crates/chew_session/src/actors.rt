//! A whole session.

ghost use Rattle.std.specs.Prelude.{◌≡◌, ◌≤◌, ◌+◌, ◌||◌, [], ◌∷◌, drop, length, map, not, true};
ghost use Rattle.std.specs.List.{list_any};
ghost use Rattle.chew_spec_disk.specs.Disk.{IsDisk, Later};
ghost use Rattle.chew_spec_cell.specs.Pass.{fresh_pass, new_passes};
ghost use Rattle.chew_spec_rounds.specs.InStep.{IsInStep};
ghost use Rattle.chew_spec_rounds.specs.Session.{IsSession as NeverLoses};
ghost use Rattle.chew_spec_session.specs.LastRounds.{disk_faults, is_no_memory};
ghost use Rattle.chew_spec_session.specs.Session.{IsSession, RoseBy, are_handled};
ghost use Rattle.chew_plain.specs.Call.{entry_of};
ghost use Rattle.chew_checkpoint.specs.Answers.{round_of};
ghost use Rattle.chew_session.specs.Answers.{ended_of};
ghost use Rattle.chew_session.specs.Crew.{MayType, basis_of, keys_of_all};
ghost use Rattle.chew_session.specs.Saving.{IsUntouched};

use crate::actor::Actor;
use crate::beside::run_beside;
use crate::context_end::ContextEnd;
use crate::ended::Ended;
use crate::meeting::meet_all;
use crate::worker::Worker;
use chew_checkpoint::{Checkpointer, Round};
use chew_outside::{Disk, Gate};
use chew_plain::Lexicon;
use chew_settings::Settings;
use chew_shared::Opened;
use std::alloc::Global;
use std::sync::Wait;
use std::thread::Threads;

/// Whether a context stopped before its last key.
fn stopped_early(actors: &[Actor], ends: &[ContextEnd]) -> bool
    ensures { result ≡ not (are_handled (keys_of_all actors.now) (map (λ end. end.handled) ends.now)) }
{
    match actors {
        [] => !ends.is_empty(),
        [actor, others @ ..] => match ends {
            [] => true,
            [end, rest @ ..] => {
                if end.handled as usize != actor.keys.len() {
                    return true;
                }
                stopped_early(others, rest)
            }
        },
    }
}

/// Whether memory was wanting for some of these rounds.
fn is_refused(rounds: &[Round]) -> bool
    ensures { result ≡ list_any is_no_memory (map round_of rounds.now) }
{
    match rounds {
        [] => false,
        [round, rest @ ..] => match round {
            Round::NoMemory => true,
            Round::Saved(_) => is_refused(rest),
            Round::DiskFault { step: _ } => is_refused(rest),
            Round::SeqSpent { seq: _ } => is_refused(rest),
        },
    }
}

/// Whether memory was wanting for a key, or for one of the rounds from a place on.
fn wants_memory(actors: &[Actor], ends: &[ContextEnd], rounds: &[Round], last_from: usize) -> bool
    requires { last_from ≤ length rounds.now }
    ensures { result ≡ (not (are_handled (keys_of_all actors.now) (map (λ end. end.handled) ends.now))
        || list_any is_no_memory (drop last_from (map round_of rounds.now))) }
{
    if stopped_early(actors, ends) {
        return true;
    }
    let (_, last) = rounds.split_at(last_from);
    is_refused(last)
}

/// Has contexts type over a shared dictionary, each in a thread of its own, while the keeper makes so many rounds beside them;
/// and then makes the last rounds, so that what they learnt is saved.
pub fn run_actors<R: Wait + Threads + Sync, L: Lexicon + Sync, D: Disk, G: Gate>(
    alloc: Global,
    rt: &R,
    system: &L,
    settings: &Settings,
    actors: Vec<Actor>,
    rounds: u32,
    opened: Opened,
    checkpointer: Checkpointer,
    disk: &mut D,
    gate: &G,
) -> Ended
    requires contexts { length actors.items ≤ 16 }
    requires typing { MayType opened.shared settings.now actors.items }
    requires rounds { rounds ≤ 64 }
    requires keeper { opened.keeper ≡ fresh_pass opened.shared 0 }
    requires passes { opened.keeper ∷ opened.passes.items ≡ new_passes opened.shared (length actors.items + 1) }
    requires seats { opened.shared.seats ≡ length actors.items + 1 }
    ensures session { IsSession (basis_of (L.rows system.now) settings.now opened.shared) (keys_of_all actors.items) rounds checkpointer.seq (ended_of result) }
    ensures told { D.told disk.new ≡ D.told disk.old }
    ensures later { D.told disk.old ≡ true → Later (D.state disk.old) (D.state disk.new) }
    ensures is_disk { D.told disk.old ≡ true → IsDisk (D.state disk.old) → IsDisk (D.state disk.new) }
    ensures faults { RoseBy (disk_faults (map round_of result.rounds.items)) (D.faults disk.old) (D.faults disk.new) }
    ensures never_falls { D.faults disk.old ≤ D.faults disk.new }
    ensures calm { disk_faults (map round_of result.rounds.items) ≡ 0 → D.faults disk.new ≡ D.faults disk.old }
    ensures crash { D.told disk.old ≡ true → IsInStep checkpointer (D.state disk.old) opened.shared.start []
        → NeverLoses opened.shared.start (map entry_of result.journal.items) (D.state disk.old).moment (D.state disk.new) (map round_of result.rounds.items) }
    ensures untouched { map round_of result.rounds.items ≡ [] → IsUntouched (D.state disk.old) (D.state disk.new) }
{
    let Opened {
        shared,
        keeper,
        passes,
    } = opened;
    let worker = Worker::of(checkpointer, keeper);
    let ((passes, contexts), worker) = run_beside(
        alloc,
        rt,
        system,
        settings,
        &shared,
        gate,
        actors.as_slice(),
        passes,
        worker,
        rounds,
        disk,
    );
    let Worker {
        checkpointer,
        keeper,
        made,
    } = worker;
    let (keeper, passes) = meet_all(&shared, keeper, passes);
    let worker = Worker {
        checkpointer,
        keeper,
        made,
    };
    let worker = worker.last_rounds(alloc, rt, &shared, gate, disk);
    let Worker {
        checkpointer: _,
        keeper,
        made,
    } = worker;
    let memory = wants_memory(
        actors.as_slice(),
        contexts.as_slice(),
        made.as_slice(),
        rounds as usize,
    );
    let journal = shared.close(keeper, passes).into_journal();
    Ended {
        journal,
        contexts,
        rounds: made,
        last_from: rounds,
        memory,
    }
}
