ghost use Rattle.std.specs.Prelude.{◌≡◌, IfSome, IsTrue, false};
ghost use Rattle.chew_spec_dictionary.specs.Call.{is_proper};
ghost use Rattle.chew_spec_dictionary.specs.History.{is_keepers};
ghost use Rattle.chew_plain.specs.Call.{call_of};

use chew_plain::Call;
use chew_syllable::{KeyRow, Run};

/// What is done with the pair of a row.
#[derive(Clone, Copy)]
pub(crate) enum Work {
    /// It is learnt, with the row's frequency as the system's.
    Learn,
    /// Its key is looked up.
    Look,
    /// It is forgotten.
    Forget,
}

impl Work {
    /// What so many of these calls are called.
    pub(crate) fn name(self) -> &'static str {
        match self {
            Work::Learn => "learns",
            Work::Look => "looks",
            Work::Forget => "forgets",
        }
    }

    /// The call.
    pub(crate) fn call(self, row: &KeyRow) -> Option<Call>
        ensures proper { IfSome result (λ call. IsTrue (is_proper (call_of call))) }
        ensures user { IfSome result (λ call. is_keepers (call_of call) ≡ false) }
    {
        match self {
            Work::Learn => Some(learn(row)),
            Work::Look => Some(Call::Look(Run::of(row.key.list())?)),
            Work::Forget => Some(Call::Forget {
                key: row.key.copy(),
                phrase: row.phrase.copy(),
            }),
        }
    }
}

/// To learn the pair of a row.
fn learn(row: &KeyRow) -> Call
    ensures proper { IsTrue (is_proper (call_of result)) }
    ensures user { is_keepers (call_of result) ≡ false }
{
    Call::Learn {
        key: row.key.copy(),
        phrase: row.phrase.copy(),
        orig: row.freq,
        peak: row.freq,
    }
}
