//! One context, from its first key on.

ghost use Rattle.std.specs.Prelude.{◌≡◌, ◌≢◌, ◌≤◌, [], IsTrue, length};
ghost use Rattle.std.specs.List.{list_all};
ghost use Rattle.chew_spec_syllable.specs.Row.{is_row};
ghost use Rattle.chew_spec_dictionary.specs.History.{start_of};
ghost use Rattle.chew_spec_text.specs.KeyStroke.{is_key_stroke};
ghost use Rattle.chew_spec_editor.specs.Invariant.{is_settings};
ghost use Rattle.chew_spec_shared.specs.SharedCalls.{IsOf};
ghost use Rattle.chew_script.specs.Keys.{keys_of};
ghost use Rattle.chew_session.specs.Typing.{Ran, Typed};

use crate::actor::Actor;
use crate::context_end::ContextEnd;
use crate::keying::handle_key;
use chew_cell::Pass;
use chew_editor::Editor;
use chew_outside::Gate;
use chew_plain::Lexicon;
use chew_script::Text;
use chew_settings::Settings;
use chew_shared::Shared;
use chew_syllable::NoMemory;
use std::alloc::Global;
use std::sync::Wait;

/// Types a context's keys until the last, or until memory is refused to it.
pub(crate) fn run_context<R: Wait, L: Lexicon, G: Gate>(
    alloc: Global,
    rt: &R,
    system: &L,
    settings: &Settings,
    shared: &Shared,
    gate: &G,
    actor: &Actor,
    pass: Pass,
) -> (Pass, ContextEnd)
    requires ours { IsOf shared.now pass }
    requires context { pass.who ≢ 0 }
    requires number { actor.now.who ≡ pass.who }
    requires unseen { pass.seen ≡ [] }
    requires settings { IsTrue (is_settings settings.now) }
    requires few { length actor.now.keys.items ≤ 65_536 }
    requires keys { IsTrue (list_all is_key_stroke (keys_of actor.now.keys.items)) }
    requires pairs { IsTrue (list_all is_row shared.now.start.pairs) }
    ensures ours { IsOf shared.now result.0 }
    ensures who { result.0.who ≡ pass.who }
    ensures ran { Ran (record { system = L.rows system.now; settings = settings.now; start = start_of shared.now.start }) pass.who
        (keys_of actor.now.keys.items) result.0.seen result.1 }
{
    let mut text = Vec::new(alloc);
    let (pass, handled) = type_keys(
        alloc, rt, system, settings, shared, gate, actor, pass, &mut text,
    );
    let end = ContextEnd {
        who: actor.who,
        handled,
        bytes: Text::of(text),
    };
    (pass, end)
}

/// Types the keys and prints their lines, and answers how many were handled.
fn type_keys<R: Wait, L: Lexicon, G: Gate>(
    alloc: Global,
    rt: &R,
    system: &L,
    settings: &Settings,
    shared: &Shared,
    gate: &G,
    actor: &Actor,
    pass: Pass,
    text: &mut Vec<u8>,
) -> (Pass, u32)
    requires ours { IsOf shared.now pass }
    requires context { pass.who ≢ 0 }
    requires unseen { pass.seen ≡ [] }
    requires empty { text.old.items ≡ [] }
    requires settings { IsTrue (is_settings settings.now) }
    requires few { length actor.now.keys.items ≤ 65_536 }
    requires keys { IsTrue (list_all is_key_stroke (keys_of actor.now.keys.items)) }
    requires pairs { IsTrue (list_all is_row shared.now.start.pairs) }
    ensures ours { IsOf shared.now result.0 }
    ensures who { result.0.who ≡ pass.who }
    ensures typed { Typed (record { system = L.rows system.now; settings = settings.now; start = start_of shared.now.start }) pass.who
        (keys_of actor.now.keys.items) result.0.seen result.1 text.new.items }
{
    let mut pass = pass;
    let mut editor = Editor::new(alloc, settings);
    let mut handled = 0;
    for key in &actor.keys {
        gate.reach(rt, actor.who, handled);
        let (after, outcome) = handle_key(alloc, rt, system, shared, pass, text, editor, *key);
        pass = after;
        match outcome {
            Ok(next) => editor = next,
            Err(NoMemory) => return (pass, handled),
        }
        handled += 1;
    }
    gate.reach(rt, actor.who, handled);
    (pass, handled)
}
