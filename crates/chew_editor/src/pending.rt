ghost use Rattle.std.specs.Prelude.{◌≡◌, IsTrue, map};
ghost use Rattle.std.specs.List.{list_all};
ghost use Rattle.chew_spec_dictionary.specs.History.{is_user_call};
ghost use Rattle.chew_spec_editor.specs.Pending.{calls_of};
ghost use Rattle.chew_plain.specs.Call.{call_of};

use crate::asked::Asked;
use chew_plain::Call;
use std::marker::Model;

/// An editor whose key asked calls of the dictionary, before their replies.
#[derive(Drop)]
pub struct Pending {
    pub(crate) asked: Asked,
}

impl Model for Pending {
    ghost use Rattle.std.specs.Prelude.{IsTrue};
    ghost use Rattle.std.specs.List.{list_all};
    ghost use Rattle.chew_spec_dictionary.specs.History.{is_user_call};
    ghost use Rattle.chew_spec_editor.specs.Invariant.{is_pending};
    ghost use Rattle.chew_spec_editor.specs.Pending as spec;

    ghost Value = { spec.Pending };

    ghost view = { λ p. p.asked };

    ghost invariant = { λ p. IsTrue (is_pending p.asked) × IsTrue (list_all is_user_call (spec.calls_of p.asked)) };
}

impl Pending {
    /// The calls, in the order in which they are to be made.
    pub fn calls(&self) -> &[Call]
        ensures value { map call_of result.now ≡ calls_of self.now }
        ensures proper { IsTrue (list_all is_user_call (map call_of result.now)) }
    {
        self.asked.calls()
    }
}
