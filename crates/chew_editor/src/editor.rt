ghost use Rattle.std.specs.Prelude.{◌≡◌};
ghost use Rattle.chew_spec_editor.specs.Editor.{empty_editor};

use crate::state::{State, Typing};
use chew_settings::Settings;
use std::alloc::Global;
use std::marker::Model;

/// A pre-edit buffer with the layout before it, the pieces that are shown for its cells, and the window of candidates
/// where it is open.
#[derive(Drop)]
pub struct Editor {
    pub(crate) state: State,
}

impl Model for Editor {
    ghost use Rattle.std.specs.Prelude.{IsTrue};
    ghost use Rattle.chew_spec_editor.specs.Editor as spec;
    ghost use Rattle.chew_spec_editor.specs.Invariant.{is_editor};
    ghost use Rattle.chew_editor.specs.State.{state_of};

    ghost Value = { spec.Editor };

    ghost view = { λ e. state_of e.state };

    ghost invariant = { λ e. IsTrue (is_editor (state_of e.state)) };
}

impl Editor {
    /// An editor that holds nothing. It takes no memory.
    pub fn new(alloc: Global, settings: &Settings) -> Editor
        ensures { result ≡ empty_editor settings.now }
    {
        Editor {
            state: State {
                typing: Typing::of(settings),
                pieces: Vec::new(alloc),
                window: None,
            },
        }
    }
}
