ghost use Rattle.std.specs.Prelude.{◌≡◌, ◌≤◌, IfOk, List, Option, drop, length, map, option_and_then, option_to_list};
ghost use Rattle.std.specs.Option.{option_map_or};
ghost use Rattle.chew_spec_phrasing.specs.Usable.{Piece};
ghost use Rattle.chew_spec_preedit.specs.PlacedRun.{run_at, runs_of};
ghost use Rattle.chew_spec_preedit.specs.Window.{Window};
ghost use Rattle.chew_spec_editor.specs.Answers.{AreAnswers};
ghost use Rattle.chew_spec_editor.specs.Finish.{finish, window_at};
ghost use Rattle.chew_spec_editor.specs.Invariant.{HasSingles};
ghost use Rattle.chew_spec_editor.specs.Pending.{calls_of, runs_asked};
ghost use Rattle.chew_plain.specs.Call.{reply_of};
ghost use Rattle.chew_editor.specs.Phrasable.{ArePhrasable, HasPlace};
ghost use Rattle.chew_editor.specs.State.{editor_of, state_of};

use crate::asked::Asked;
use crate::candidates::window_at;
use crate::editor::Editor;
use crate::line::line_of;
use crate::noting::note_after;
use crate::pending::Pending;
use crate::phrasing::{hits_in, phrased};
use crate::rows::all_are_rows;
use crate::state::{State, Typing};
use arrayvec::ArrayVec;
use chew_candidates::Window;
use chew_plain::{Lexicon, Reply};
use chew_preedit::{PlacedRun, Preedit, RUNS_LIMIT};
use chew_script::Line;
use chew_syllable::NoMemory;
use std::alloc::Global;
use std::cmp::min;

/// What the replies to a key's calls, one a call, make of the editor, and the line that shows it then. Where memory is
/// refused, the editor is gone.
pub fn finish<L: Lexicon>(
    alloc: Global,
    pending: Pending,
    system: &L,
    replies: Vec<Reply>,
) -> Result<(Editor, Line), NoMemory>
    requires singles { HasSingles (L.rows system.now) pending.editor.buffer.cells }
    requires answers { AreAnswers pending (map reply_of replies.items) }
    ensures editor { IfOk result (λ done. done.0 ≡ (finish (L.rows system.now) pending (map reply_of replies.items)).editor) }
    ensures line { IfOk result (λ done. done.1 ≡ (finish (L.rows system.now) pending (map reply_of replies.items)).line) }
    ensures singles { IfOk result (λ done. HasSingles (L.rows system.now) done.0.buffer.cells) }
{
    all_are_rows(system);
    let (state, line) = finished(alloc, pending.asked, system, replies.as_slice())?;
    Ok((Editor { state }, line))
}

/// The same of the state.
fn finished<L: Lexicon>(
    alloc: Global,
    asked: Asked,
    system: &L,
    replies: &[Reply],
) -> Result<(State, Line), NoMemory>
    requires one_each { length replies.now ≡ length (calls_of asked) }
    requires runs { ArePhrasable (L.rows system.now) asked.editor.buffer (runs_asked asked) (drop (length asked.changes) (map reply_of replies.now)) }
    requires place { HasPlace (runs_asked asked) asked.opens }
    requires some { 1 ≤ asked.editor.settings.page }
    requires few { asked.editor.settings.page ≤ 10 }
    ensures state { IfOk result (λ done. state_of done.0 ≡ (finish (L.rows system.now) asked (map reply_of replies.now)).editor) }
    ensures line { IfOk result (λ done. done.1 ≡ (finish (L.rows system.now) asked (map reply_of replies.now)).line) }
{
    let state = asked.state;
    let typing = state.typing;
    let had = state.pieces;
    // the changes come first among the calls, so that their replies do too
    let count = min(asked.change_count, replies.len());
    let looked = &replies[count..];
    let asked_runs = runs_asked(&typing.preedit, asked.opens);
    let runs = asked_runs.as_slice();
    let pieces = phrased(alloc, system, &typing.preedit, had, runs, looked)?;
    let window = window_opened(alloc, system, &typing, runs, looked, asked.opens)?;
    let note = note_after(asked.note, &replies[..count]);
    let line = line_of(alloc, &typing, &pieces, &window, asked.commit, note)?;
    let finished = State {
        typing,
        pieces,
        window,
    };
    Ok((finished, line))
}

/// The runs that are looked up: where a window opens the run at its place, else all.
fn runs_asked(preedit: &Preedit, opens: Option<u8>) -> ArrayVec<PlacedRun, RUNS_LIMIT>
    ensures { result.items ≡ option_map_or (λ place. option_to_list (run_at preedit.now.cells place)) opens (runs_of preedit.now.cells) }
{
    match opens {
        Some(place) => one_run(preedit.run_at(place)),
        None => preedit.runs(),
    }
}

/// A run by itself, where there is one.
fn one_run(run: Option<PlacedRun>) -> ArrayVec<PlacedRun, RUNS_LIMIT>
    ensures { result.items ≡ option_to_list run }
{
    let mut runs = ArrayVec::new();
    if let Some(run) = run {
        runs.push(run);
    }
    runs
}

/// The window, where one opens.
fn window_opened<L: Lexicon>(
    alloc: Global,
    system: &L,
    typing: &Typing,
    runs: &[PlacedRun],
    replies: &[Reply],
    opens: Option<u8>,
) -> Result<Option<Window>, NoMemory>
    requires place { HasPlace runs.now opens }
    requires some { 1 ≤ typing.now.settings.page }
    requires few { typing.now.settings.page ≤ 10 }
    ensures { (pieces : List Piece) (had : Option Window) → IfOk result (λ window. window
        ≡ option_and_then (window_at (L.rows system.now) (editor_of typing.now pieces had) runs.now (map reply_of replies.now)) opens) }
{
    match opens {
        Some(place) => match runs {
            [run, ..] => match replies {
                [reply, ..] => window_at(
                    alloc,
                    system,
                    &typing.preedit,
                    run,
                    hits_in(reply),
                    place,
                    typing.settings.page,
                ),
                [] => Ok(None),
            },
            [] => Ok(None),
        },
        None => Ok(None),
    }
}
