ghost use Rattle.std.specs.Prelude.{◌≡◌};
ghost use Rattle.chew_script.specs.Keys.{lists_of};

use crate::keystroke::KeyStroke;
use std::marker::Model;

/// The keys of each context, from number 1 on.
#[derive(Debug, Drop)]
pub struct Contexts {
    lists: Vec<Vec<KeyStroke>>,
}

impl Model for Contexts {
    ghost use Rattle.std.specs.Prelude.{List};
    ghost use Rattle.chew_spec_text.specs.KeyStroke.{KeyStroke as Key};
    ghost use Rattle.chew_script.specs.Keys.{lists_of};

    ghost Value = { List (List Key) };

    ghost view = { λ contexts. lists_of contexts.lists.items };
}

impl Contexts {
    /// The contexts of these keys.
    pub fn of(lists: Vec<Vec<KeyStroke>>) -> Contexts
        ensures { result ≡ lists_of lists.items }
    {
        Contexts { lists }
    }

    /// The keys of each context.
    pub fn lists(&self) -> &[Vec<KeyStroke>]
        ensures { lists_of result.now ≡ self.now }
    {
        self.lists.as_slice()
    }

    /// The keys of each context, to be kept.
    pub fn into_vec(self) -> Vec<Vec<KeyStroke>>
        ensures { lists_of result.items ≡ self }
    {
        self.lists
    }
}
