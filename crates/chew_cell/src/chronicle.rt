ghost use Rattle.std.specs.Prelude.{◌≡◌, map};
ghost use Rattle.chew_plain.specs.Call.{entry_of};

use chew_plain::Entry;

/// A value that keeps its own history: each call that was made of it, with the number of who made it. Contracts also know
/// the dictionary that the history begins with, its `start`.
pub trait Chronicle: Drop + Send {
    ghost use Rattle.std.specs.Prelude.{List};
    ghost use Rattle.chew_spec_dictionary.specs.Dictionary.{Dictionary};
    ghost use Rattle.chew_spec_dictionary.specs.History as history;

    ghost entries: { Self → List history.Entry };

    ghost start: { Self → Dictionary };

    /// The entries, the oldest first.
    fn entries(&self) -> &[Entry]
        ensures { map entry_of result.now ≡ entries self.now };
}
