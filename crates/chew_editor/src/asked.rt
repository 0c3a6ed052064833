ghost use Rattle.std.specs.Prelude.{◌≡◌, map};
ghost use Rattle.chew_spec_editor.specs.Pending.{calls_of};
ghost use Rattle.chew_plain.specs.Call.{call_of};

use crate::state::State;
use chew_plain::Call;
use chew_script::{Note, Text};
use std::marker::Model;

/// What a key leaves before the replies to its calls.
#[derive(Drop)]
pub(crate) struct Asked {
    /// But for the pieces of the runs that are looked up.
    pub(crate) state: State,
    /// What is changed in the dictionary, and then a look-up of each run that is asked.
    pub(crate) calls: Vec<Call>,
    /// How many of the calls change the dictionary.
    pub(crate) change_count: usize,
    pub(crate) commit: Text,
    /// The note, if all goes well.
    pub(crate) note: Note,
    /// The place at which the window opens.
    pub(crate) opens: Option<u8>,
}

impl Model for Asked {
    ghost use Rattle.std.specs.Prelude.{◌≡◌, map, take};
    ghost use Rattle.chew_spec_editor.specs.Pending.{Pending, calls_of};
    ghost use Rattle.chew_plain.specs.Call.{call_of};
    ghost use Rattle.chew_script.specs.Notes.{note_of};
    ghost use Rattle.chew_editor.specs.State.{state_of};

    ghost Value = { Pending };

    ghost view = { λ a. record {
      editor = state_of a.state;
      changes = take a.change_count (map call_of a.calls.items);
      commit = a.commit;
      note = note_of a.note;
      opens = a.opens;
    } };

    ghost invariant = { λ a. map call_of a.calls.items ≡ calls_of (record {
      editor = state_of a.state;
      changes = take a.change_count (map call_of a.calls.items);
      commit = a.commit;
      note = note_of a.note;
      opens = a.opens;
    }) };
}

impl Asked {
    /// The calls, in the order in which they are to be made.
    pub(crate) fn calls(&self) -> &[Call]
        ensures { map call_of result.now ≡ calls_of self.now }
    {
        self.calls.as_slice()
    }
}
