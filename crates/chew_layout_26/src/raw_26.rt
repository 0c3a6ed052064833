ghost use Rattle.std.specs.Prelude.{◌≡◌, ◌≤◌, [], IsTrue, length, nat_lt};
ghost use Rattle.chew_spec_layout.specs.Letters.{are_held_letters, fed_letters, letter_columns};
ghost use Rattle.chew_syllable.specs.Step.{step_of};
ghost use Rattle.chew_layout_26.specs.Kinds.{kind_of};

use crate::columns::Letters;
use crate::turn::fed;
use arrayvec::{ArrayString, ArrayVec};
use chew_syllable::{Step, array_of, text_of};
use std::marker::Model;

/// Hsu or ET26, with at most three letters that were typed.
#[derive(Debug, Drop)]
pub struct Raw26 {
    kind: Letters,
    held: ArrayVec<u8, 3>,
}

impl Model for Raw26 {
    ghost use Rattle.std.specs.Prelude.{IsTrue};
    ghost use Rattle.chew_spec_layout.specs.Letters.{Lettered, are_held_letters, letter_columns};
    ghost use Rattle.chew_layout_26.specs.Kinds.{kind_of};

    ghost Value = { Lettered };

    ghost view = { λ a. record { kind = kind_of a.kind; held = a.held.items } };

    ghost invariant = { λ a. IsTrue (are_held_letters (letter_columns (kind_of a.kind)) a.held.items) };
}

impl Raw26 {
    /// A layout of this kind that holds nothing.
    pub fn of(kind: Letters) -> Raw26
        ensures { result ≡ record { kind = kind_of kind; held = [] } }
    {
        Raw26 {
            kind,
            held: ArrayVec::new(),
        }
    }

    /// Takes a key, given as its character in ASCII, or 8 for Backspace.
    #[tactic(auto, using(chew_spec_layout::proofs::Lettered::stays))]
    pub fn feed(&mut self, key: u8) -> Step
        ensures step { step_of result ≡ (fed_letters (letter_columns self.old.kind) self.old.held key).step }
        ensures held { self.new ≡ record self.old { held = (fed_letters (letter_columns self.old.kind) self.old.held key).held } }
        ensures valid { IsTrue (are_held_letters (letter_columns self.new.kind) self.new.held) }
    {
        fed(self.kind, &mut self.held, key)
    }

    /// Lets go of what it holds.
    pub fn clear(&mut self)
        ensures { self.new ≡ record self.old { held = [] } }
    {
        self.held.clear();
    }

    /// Whether it holds a letter.
    pub fn holds(&self) -> bool
        ensures value { result ≡ nat_lt 0 (length self.now.held) }
        ensures valid { IsTrue (are_held_letters (letter_columns self.now.kind) self.now.held) }
    {
        !self.held.is_empty()
    }

    /// The letters that it holds.
    #[tactic(auto, using(crate::proofs::Ascii::held_utf8))]
    pub fn shown(&self) -> ArrayString<12>
        ensures { result.bytes ≡ self.now.held }
    {
        text_of(self.held.as_slice())
    }

    /// The same layout once more. It takes no memory.
    pub fn copy(&self) -> Raw26
        ensures { result ≡ self.now }
    {
        Raw26 {
            kind: self.kind,
            held: array_of(self.held.as_slice()),
        }
    }
}
