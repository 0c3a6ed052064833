ghost use Rattle.std.specs.Prelude.{◌≡◌, ◌++◌, [], IfErr, IfOk, List, None, map};
ghost use Rattle.chew_spec_syllable.specs.Row.{Row};
ghost use Rattle.chew_spec_dictionary.specs.Call as dictionary;
ghost use Rattle.chew_spec_editor.specs.Editor as editor;
ghost use Rattle.chew_spec_editor.specs.Press.{Done, asking};
ghost use Rattle.chew_plain.specs.Call.{call_of};
ghost use Rattle.chew_script.specs.Notes.{note_of};
ghost use Rattle.chew_editor.specs.Outcome.{asked_by, outcome_of};
ghost use Rattle.chew_editor.specs.State.{editor_of};

use crate::asked::Asked;
use crate::line::line_of;
use crate::outcome::Outcome;
use crate::state::{State, Typing};
use chew_plain::Call;
use chew_preedit::PlacedRun;
use chew_script::{Note, Text};
use chew_syllable::NoMemory;
use std::alloc::Global;

/// What a key changes in the dictionary, with the text that it commits and its note, if all goes well.
#[derive(Drop)]
pub(crate) struct Changes {
    pub(crate) calls: Vec<Call>,
    pub(crate) commit: Text,
    pub(crate) note: Note,
}

/// The key makes these changes and looks up all runs of what is typed then. It is done at once where it asks nothing.
pub(crate) fn asking(
    alloc: Global,
    state: State,
    typing: Typing,
    changes: Changes,
) -> Result<Outcome, (State, NoMemory)>
    ensures ok { (system : List Row) → IfOk result (λ outcome. outcome_of outcome
        ≡ asking system (asked_by typing (map call_of changes.calls.items) changes.commit (note_of changes.note))) }
    ensures kept { IfErr result (λ refused. refused.0 ≡ state) }
{
    let change_count = changes.calls.as_slice().len();
    let runs = typing.preedit.runs();
    match with_looks(changes.calls, runs.as_slice()) {
        Ok(calls) => {
            if calls.as_slice().is_empty() {
                return done(alloc, state, typing, changes.commit, changes.note);
            }
            Ok(Outcome::Ask(Asked {
                state: State {
                    typing,
                    pieces: Vec::new(alloc),
                    window: None,
                },
                calls,
                change_count,
                commit: changes.commit,
                note: changes.note,
                opens: None,
            }))
        }
        Err(refused) => Err((state, refused)),
    }
}

/// The calls, and behind them a look-up of each run.
fn with_looks(changes: Vec<Call>, runs: &[PlacedRun]) -> Result<Vec<Call>, NoMemory>
    ensures { IfOk result (λ calls. map call_of calls.items ≡ map call_of changes.items ++ map (λ run. dictionary.Look run.codes) runs.now) }
{
    let mut calls = changes;
    for run in runs {
        calls.push(Call::Look(run.codes.copy()))?;
    }
    Ok(calls)
}

/// What is typed, without pieces and window.
fn done(
    alloc: Global,
    state: State,
    typing: Typing,
    commit: Text,
    note: Note,
) -> Result<Outcome, (State, NoMemory)>
    ensures ok { IfOk result (λ outcome. outcome_of outcome
        ≡ Done (editor_of typing [] None) (editor.line_of (editor_of typing [] None) commit (note_of note))) }
    ensures kept { IfErr result (λ refused. refused.0 ≡ state) }
{
    match line_of(alloc, &typing, &[], &None, commit, note) {
        Ok(line) => {
            let done = State {
                typing,
                pieces: Vec::new(alloc),
                window: None,
            };
            Ok(Outcome::Done(done, line))
        }
        Err(refused) => Err((state, refused)),
    }
}
