ghost use Rattle.std.specs.Prelude.{◌≡◌, ◌≤◌, ◌↔◌, length, IsSome, IfSome, OnSome, IsTrue};
ghost use Rattle.chew_spec_syllable.specs.Key.{is_key, is_run};

use crate::arrays::array_of;
use crate::syllable::{Syllable, all_are_syllables};
use arrayvec::ArrayVec;
use std::marker::Model;

/// The most syllables of a key.
pub const KEY_LIMIT: usize = 11;

/// The most syllables of a run.
pub const RUN_LIMIT: usize = 39;

/// 1 to 11 syllables, under which a dictionary holds phrases.
#[derive(Debug, Drop)]
pub struct Key {
    syllables: ArrayVec<Syllable, KEY_LIMIT>,
}

impl Model for Key {
    ghost use Rattle.std.specs.Prelude.{List, ℕ, IsTrue};
    ghost use Rattle.chew_spec_syllable.specs.Key.{is_key};

    ghost Value = { List ℕ };

    ghost view = { λ key. key.syllables.items };

    ghost invariant = { λ key. IsTrue (is_key key.syllables.items) };
}

impl Key {
    /// The key of these syllables; `None` where they are none or more than 11.
    pub fn of(syllables: &[Syllable]) -> Option<Key>
        ensures range { IsSome result ↔ ((1 ≤ length syllables.now) × (length syllables.now ≤ 11)) }
        ensures ok { IfSome result (λ key. key ≡ syllables.now) }
        ensures valid { OnSome result (IsTrue (is_key syllables.now)) }
    {
        if syllables.is_empty() {
            return None;
        }
        all_are_syllables(syllables);
        let syllables = ArrayVec::try_from(syllables).ok()?;
        Some(Key { syllables })
    }

    /// The key of 1 to 11 syllables. It takes no memory.
    pub fn of_some(syllables: &[Syllable]) -> Key
        requires some { 1 ≤ length syllables.now }
        requires few { length syllables.now ≤ 11 }
        ensures { result ≡ syllables.now }
    {
        all_are_syllables(syllables);
        Key {
            syllables: array_of(syllables),
        }
    }

    /// How many syllables it has, 1 to 11.
    pub fn len(&self) -> usize
        ensures { result ≡ length self.now }
    {
        self.syllables.len()
    }

    /// The syllables, in order.
    pub fn list(&self) -> &[Syllable]
        ensures value { result.now ≡ self.now }
        ensures valid { IsTrue (is_key result.now) }
    {
        self.syllables.as_slice()
    }

    /// The same key once more. It takes no memory.
    pub fn copy(&self) -> Key
        ensures { result ≡ self.now }
    {
        Key {
            syllables: array_of(self.syllables.as_slice()),
        }
    }
}

/// 0 to 39 syllables that are looked up as a whole.
#[derive(Debug, Drop)]
pub struct Run {
    syllables: ArrayVec<Syllable, RUN_LIMIT>,
}

impl Model for Run {
    ghost use Rattle.std.specs.Prelude.{List, ℕ, IsTrue};
    ghost use Rattle.chew_spec_syllable.specs.Key.{is_run};

    ghost Value = { List ℕ };

    ghost view = { λ run. run.syllables.items };

    ghost invariant = { λ run. IsTrue (is_run run.syllables.items) };
}

impl Run {
    /// The run of these syllables; `None` where they are more than 39.
    pub fn of(syllables: &[Syllable]) -> Option<Run>
        ensures range { IsSome result ↔ (length syllables.now ≤ 39) }
        ensures ok { IfSome result (λ run. run ≡ syllables.now) }
        ensures valid { OnSome result (IsTrue (is_run syllables.now)) }
    {
        all_are_syllables(syllables);
        let syllables = ArrayVec::try_from(syllables).ok()?;
        Some(Run { syllables })
    }

    /// The run of at most 39 syllables. It takes no memory.
    pub fn of_few(syllables: &[Syllable]) -> Run
        requires { length syllables.now ≤ 39 }
        ensures { result ≡ syllables.now }
    {
        all_are_syllables(syllables);
        Run {
            syllables: array_of(syllables),
        }
    }

    /// The syllables, in order.
    pub fn list(&self) -> &[Syllable]
        ensures value { result.now ≡ self.now }
        ensures valid { IsTrue (is_run result.now) }
    {
        self.syllables.as_slice()
    }

    /// The same run once more. It takes no memory.
    pub fn copy(&self) -> Run
        ensures { result ≡ self.now }
    {
        Run {
            syllables: array_of(self.syllables.as_slice()),
        }
    }
}
