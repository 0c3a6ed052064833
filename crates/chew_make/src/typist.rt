ghost use Rattle.std.specs.Prelude.{◌≡◌, ◌+◌, IfOk, IsTrue, cond, length};
ghost use Rattle.std.specs.List.{list_all};
ghost use Rattle.chew_spec_syllable.specs.Row.{is_row};
ghost use Rattle.chew_spec_text.specs.KeyStroke.{is_key_stroke};
ghost use Rattle.chew_spec_editor.specs.Alone.{point_after, replies_from};
ghost use Rattle.chew_spec_editor.specs.Editor.{empty_editor};
ghost use Rattle.chew_spec_editor.specs.Finish.{finish};
ghost use Rattle.chew_spec_editor.specs.Invariant.{HasSingles};
ghost use Rattle.chew_spec_editor.specs.Keys.{press};
ghost use Rattle.chew_spec_editor.specs.Pending.{calls_of};
ghost use Rattle.chew_spec_program.specs.Make.{has_commit};
ghost use Rattle.chew_script.specs.Keys.{key_of};
ghost use Rattle.chew_make.specs.Counts.{key_counted, nothing_learnt, tally_of};

use crate::asking::{replies_to, with_calls};
use crate::summary::{STEPS, Summary};
use chew_editor::{Editor, Pending, Pressed, finish, press};
use chew_plain::{Plain, RowMap};
use chew_script::{KeyStroke, Line};
use chew_settings::Settings;
use chew_syllable::NoMemory;
use std::alloc::Global;

/// An editor that types alone with its dictionary, and what came of it so far.
#[derive(Drop)]
pub(crate) struct Typist {
    pub(crate) editor: Editor,
    pub(crate) plain: Plain,
    /// How many calls were made of the dictionary.
    pub(crate) calls: u64,
    /// How many lines committed something.
    pub(crate) commits: u64,
}

impl Typist {
    /// One that typed nothing yet, with a dictionary without a pair.
    pub(crate) fn new(alloc: Global, settings: &Settings) -> Result<Typist, NoMemory>
        ensures { IfOk result (λ typist. typist
            ≡ record { editor = empty_editor settings.now; plain = nothing_learnt settings.now; calls = 0; commits = 0 }) }
    {
        let plain = nothing_learnt(alloc, settings)?;
        Ok(Typist {
            editor: Editor::new(alloc, settings),
            plain,
            calls: 0,
            commits: 0,
        })
    }

    /// Types a key: makes its calls, and counts them and what its line committed.
    pub(crate) fn type_key(
        self,
        alloc: Global,
        system: &RowMap,
        key: KeyStroke,
    ) -> Result<Typist, NoMemory>
        requires singles { HasSingles system.now self.editor.buffer.cells }
        requires key { IsTrue (is_key_stroke (key_of key)) }
        requires pairs { IsTrue (list_all is_row self.plain.dictionary.pairs) }
        ensures value { IfOk result (λ next. tally_of next ≡ key_counted system.now (tally_of self) (press system.now self.editor (key_of key))) }
        ensures singles { IfOk result (λ next. HasSingles system.now next.editor.buffer.cells) }
        ensures pairs { IfOk result (λ next. IsTrue (list_all is_row next.plain.dictionary.pairs)) }
    {
        let Typist {
            editor,
            plain,
            calls,
            commits,
        } = self;
        match press(alloc, editor, system, key) {
            Ok(Pressed::Done(editor, line)) => {
                let commits = with_line(commits, &line)?;
                Ok(Typist {
                    editor,
                    plain,
                    calls,
                    commits,
                })
            }
            Ok(Pressed::Ask(pending)) => answer(alloc, system, plain, calls, commits, pending),
            Err((_, refused)) => Err(refused),
        }
    }

    /// What came of so many keys.
    pub(crate) fn summary(&self, keys: u64) -> Summary
        ensures { result ≡ record {
          steps = 4096;
          keys = keys;
          commits = self.now.commits;
          entries = self.now.calls;
          life = self.now.plain.dictionary.life;
          pairs = length self.now.plain.dictionary.pairs;
        } }
    {
        Summary {
            steps: STEPS,
            keys,
            commits: self.commits,
            entries: self.calls,
            life: self.plain.life(),
            pairs: self.plain.pairs(),
        }
    }
}

/// A user's dictionary without a pair, which takes as many as the settings say.
fn nothing_learnt(alloc: Global, settings: &Settings) -> Result<Plain, NoMemory>
    ensures { IfOk result (λ plain. plain ≡ nothing_learnt settings.now) }
{
    match Plain::of(Vec::new(alloc), 0, settings.cap) {
        Ok(plain) => Ok(plain),
        Err(_) => Err(NoMemory),
    }
}

/// Makes the calls of a key that the editor waits for, and counts them and what the line of their replies commits.
fn answer(
    alloc: Global,
    system: &RowMap,
    mut plain: Plain,
    made: u64,
    committed: u64,
    pending: Pending,
) -> Result<Typist, NoMemory>
    requires singles { HasSingles system.now pending.editor.buffer.cells }
    requires pairs { IsTrue (list_all is_row plain.dictionary.pairs) }
    ensures editor { IfOk result (λ next. next.editor ≡ (finish system.now pending (replies_from plain (calls_of pending))).editor) }
    ensures point { IfOk result (λ next. next.plain ≡ point_after plain (calls_of pending)) }
    ensures calls { IfOk result (λ next. next.calls ≡ made + length (calls_of pending)) }
    ensures commits { IfOk result (λ next. next.commits
        ≡ committed + cond (has_commit (finish system.now pending (replies_from plain (calls_of pending))).line) 1 0) }
    ensures singles { IfOk result (λ next. HasSingles system.now next.editor.buffer.cells) }
    ensures pairs { IfOk result (λ next. IsTrue (list_all is_row next.plain.dictionary.pairs)) }
{
    let calls = with_calls(made, &pending)?;
    let replies = replies_to(alloc, &mut plain, &pending)?;
    let (editor, line) = finish(alloc, pending, system, replies)?;
    let commits = with_line(committed, &line)?;
    Ok(Typist {
        editor,
        plain,
        calls,
        commits,
    })
}

/// A count, and one more where the line committed something. A sum that is no `u64` is told as want of memory.
fn with_line(committed: u64, line: &Line) -> Result<u64, NoMemory>
    ensures { IfOk result (λ sum. sum ≡ committed + cond (has_commit line.now) 1 0) }
{
    match committed.checked_add(commits_of(line)) {
        Some(sum) => Ok(sum),
        None => Err(NoMemory),
    }
}

/// 1 where the line committed something, else 0.
fn commits_of(line: &Line) -> u64
    ensures { result ≡ cond (has_commit line.now) 1 0 }
{
    if line.commit.bytes().is_empty() { 0 } else { 1 }
}
