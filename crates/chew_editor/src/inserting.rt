ghost use Rattle.std.specs.Prelude.{◌≡◌, ◌≤◌, IfErr, IfOk, IsTrue, length, map};
ghost use Rattle.chew_spec_preedit.specs.Edit.{is_full};
ghost use Rattle.chew_spec_layout.specs.Step.{NotMine, Whole};
ghost use Rattle.chew_spec_text.specs.KeyStroke.{is_printable};
ghost use Rattle.chew_spec_text.specs.Line.{Quiet};
ghost use Rattle.chew_spec_editor.specs.Invariant.{is_editor};
ghost use Rattle.chew_spec_editor.specs.Press.{after_step, asking, insert, leading_cells, leading_learns, press_char, releasing, text_at};
ghost use Rattle.chew_layouts.specs.Layouts.{layout_of};
ghost use Rattle.chew_plain.specs.Call.{call_of};
ghost use Rattle.chew_preedit.specs.CellItem.{cell_of, is_printable_item};
ghost use Rattle.chew_script.specs.Notes.{note_of};
ghost use Rattle.chew_syllable.specs.Step.{step_of};
ghost use Rattle.chew_editor.specs.Outcome.{outcome_of};
ghost use Rattle.chew_editor.specs.State.{state_of};

use crate::asking::{Changes, asking};
use crate::cells_text::text_at;
use crate::changes::alone;
use crate::edit_keys::edit;
use crate::learning::{leading_cells, learn_shown};
use crate::outcome::Outcome;
use crate::settling::relay;
use crate::state::State;
use chew_layouts::Layout;
use chew_plain::{Call, Lexicon};
use chew_preedit::CellItem;
use chew_script::Note;
use chew_syllable::{NoMemory, Step, Syllable};
use std::alloc::Global;

/// A character goes to the layout.
#[tactic(auto, unfolding(chew_spec_editor::specs::Press::press_char))]
pub(crate) fn press_char<L: Lexicon>(
    alloc: Global,
    state: State,
    system: &L,
    byte: u8,
) -> Result<Outcome, (State, NoMemory)>
    requires byte { IsTrue (is_printable byte) }
    requires editor { IsTrue (is_editor (state_of state)) }
    ensures ok { IfOk result (λ outcome. outcome_of outcome ≡ press_char (L.rows system.now) (state_of state) byte) }
    ensures kept { IfErr result (λ refused. refused.0 ≡ state) }
{
    let mut layout = state.typing.layout.copy();
    let step = layout.feed(byte);
    after_step(alloc, state, system, layout, byte, step)
}

/// What the layout's step does, where the layout is this then.
#[tactic(auto, unfolding(chew_spec_editor::specs::Press::after_step))]
fn after_step<L: Lexicon>(
    alloc: Global,
    state: State,
    system: &L,
    layout: Layout,
    byte: u8,
    step: Step,
) -> Result<Outcome, (State, NoMemory)>
    requires byte { IsTrue (is_printable byte) }
    requires editor { IsTrue (is_editor (state_of state)) }
    ensures ok { IfOk result (λ outcome. outcome_of outcome
        ≡ after_step (L.rows system.now) (record (state_of state) { layout = layout_of layout }) byte (step_of step)) }
    ensures kept { IfErr result (λ refused. refused.0 ≡ state) }
{
    match step {
        Step::Kept | Step::Erased => relay(alloc, state, layout, Note::Quiet),
        Step::Whole(syllable) => take_whole(alloc, state, system, layout, syllable),
        Step::Refused => relay(alloc, state, layout, Note::Bell),
        Step::NotMine => take_symbol(alloc, state, system, layout, byte),
    }
}

/// A whole syllable is taken where the system has a row for it alone.
#[tactic(auto, unfolding(chew_spec_editor::specs::Press::after_step))]
fn take_whole<L: Lexicon>(
    alloc: Global,
    state: State,
    system: &L,
    layout: Layout,
    syllable: Syllable,
) -> Result<Outcome, (State, NoMemory)>
    requires { IsTrue (is_editor (state_of state)) }
    ensures ok { IfOk result (λ outcome. outcome_of outcome
        ≡ after_step (L.rows system.now) (record (state_of state) { layout = layout_of layout }) 0 (Whole syllable)) }
    ensures kept { IfErr result (λ refused. refused.0 ≡ state) }
{
    if !system.has_single(syllable) {
        return relay(alloc, state, layout, Note::Bell);
    }
    insert(alloc, state, system, layout, CellItem::Sound(syllable))
}

/// A key that isn't the layout's is a symbol, where nothing is held.
#[tactic(auto, unfolding(chew_spec_editor::specs::Press::after_step))]
fn take_symbol<L: Lexicon>(
    alloc: Global,
    state: State,
    system: &L,
    layout: Layout,
    byte: u8,
) -> Result<Outcome, (State, NoMemory)>
    requires byte { IsTrue (is_printable byte) }
    requires editor { IsTrue (is_editor (state_of state)) }
    ensures ok { IfOk result (λ outcome. outcome_of outcome
        ≡ after_step (L.rows system.now) (record (state_of state) { layout = layout_of layout }) byte NotMine) }
    ensures kept { IfErr result (λ refused. refused.0 ≡ state) }
{
    if layout.holds() {
        return relay(alloc, state, layout, Note::Bell);
    }
    insert(alloc, state, system, layout, CellItem::Symbol(byte))
}

/// An item at the cursor, where the layout is this then.
#[tactic(auto, unfolding(chew_spec_editor::specs::Press::insert, chew_spec_editor::specs::Press::edit))]
fn insert<L: Lexicon>(
    alloc: Global,
    state: State,
    system: &L,
    layout: Layout,
    item: CellItem,
) -> Result<Outcome, (State, NoMemory)>
    requires item { IsTrue (is_printable_item item) }
    requires editor { IsTrue (is_editor (state_of state)) }
    ensures ok { IfOk result (λ outcome. outcome_of outcome
        ≡ insert (L.rows system.now) (record (state_of state) { layout = layout_of layout }) (cell_of item)) }
    ensures kept { IfErr result (λ refused. refused.0 ≡ state) }
{
    if state.typing.preedit.is_full() {
        return release(alloc, state, system, layout, item);
    }
    let mut typing = state.typing.with_layout(layout);
    typing.preedit.insert(item);
    edit(alloc, state, typing)
}

/// A full buffer commits its leading cells before it takes an item more.
fn release<L: Lexicon>(
    alloc: Global,
    state: State,
    system: &L,
    layout: Layout,
    item: CellItem,
) -> Result<Outcome, (State, NoMemory)>
    requires full { IsTrue (is_full state.typing.preedit) }
    requires item { IsTrue (is_printable_item item) }
    requires editor { IsTrue (is_editor (state_of state)) }
    ensures ok { IfOk result (λ outcome. outcome_of outcome
        ≡ asking (L.rows system.now) (releasing (L.rows system.now) (record (state_of state) { layout = layout_of layout }) (cell_of item))) }
    ensures kept { IfErr result (λ refused. refused.0 ≡ state) }
{
    match leading_changes(alloc, &state, system) {
        Ok(changes) => {
            let mut typing = state.typing.with_layout(layout);
            typing.preedit.release(leading_count(&state));
            typing.preedit.insert(item);
            asking(alloc, state, typing, changes)
        }
        Err(refused) => Err((state, refused)),
    }
}

/// How many cells lead a full buffer, at least one and at most all.
fn leading_count(state: &State) -> u8
    requires full { IsTrue (is_full state.now.typing.preedit) }
    requires editor { IsTrue (is_editor (state_of state.now)) }
    ensures value { result ≡ leading_cells (state_of state.now) }
    ensures some { 1 ≤ result }
    ensures within { result ≤ length state.now.typing.preedit.cells }
{
    leading_cells(state) as u8
}

/// What the release of the leading cells of a full buffer changes in the dictionary, and their text.
fn leading_changes<L: Lexicon>(
    alloc: Global,
    state: &State,
    system: &L,
) -> Result<Changes, NoMemory>
    requires full { IsTrue (is_full state.now.typing.preedit) }
    requires editor { IsTrue (is_editor (state_of state.now)) }
    ensures calls { IfOk result (λ changes. map call_of changes.calls.items ≡ leading_learns (L.rows system.now) (state_of state.now)) }
    ensures commit { IfOk result (λ changes. changes.commit ≡ text_at (state_of state.now) 0 (leading_cells (state_of state.now))) }
    ensures note { IfOk result (λ changes. note_of changes.note ≡ Quiet) }
{
    let calls = leading_learns(alloc, state, system)?;
    let commit = text_at(alloc, state, 0, leading_cells(state))?;
    Ok(Changes {
        calls,
        commit,
        note: Note::Quiet,
    })
}

/// A leading piece that is released is learnt by itself; a symbol never is.
#[tactic(auto, unfolding(chew_spec_editor::specs::Press::leading_learns))]
fn leading_learns<L: Lexicon>(
    alloc: Global,
    state: &State,
    system: &L,
) -> Result<Vec<Call>, NoMemory>
    requires full { IsTrue (is_full state.now.typing.preedit) }
    requires editor { IsTrue (is_editor (state_of state.now)) }
    ensures { IfOk result (λ calls. map call_of calls.items ≡ leading_learns (L.rows system.now) (state_of state.now)) }
{
    if !state.typing.settings.is_learning() {
        return Ok(Vec::new(alloc));
    }
    if !state.typing.preedit.has_sound(0) {
        return Ok(Vec::new(alloc));
    }
    let learn = learn_shown(alloc, system, state, 0, leading_cells(state))?;
    alone(alloc, learn)
}
