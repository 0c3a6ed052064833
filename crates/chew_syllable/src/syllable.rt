ghost use Rattle.std.specs.Prelude.{◌≡◌, SomeIff, IsTrue};
ghost use Rattle.std.specs.List.{list_all};
ghost use Rattle.chew_spec_syllable.specs.Syllable.{code_of, is_code, is_syllable, parts_of};

use crate::parts::Parts;
use std::marker::Model;

/// A syllable of Zhuyin, by its code.
#[derive(Clone, Copy, Debug, PartialEq, Eq, PartialOrd, Ord)]
pub struct Syllable {
    code: u16,
}

impl Model for Syllable {
    ghost use Rattle.std.specs.Prelude.{ℕ, IsTrue};
    ghost use Rattle.chew_spec_syllable.specs.Syllable.{is_code};

    ghost Value = { ℕ };

    ghost view = { λ s. s.code };

    ghost invariant = { λ s. IsTrue (is_code s.code) };

    ghost inverse = { λ n. record { code = n } };
}

impl Default for Syllable {
    ghost is_default = { λ s. s ≡ 8 };

    /// ㄚ in the first tone, since some syllable has to fill unused places.
    fn default() -> Self {
        Syllable { code: 8 }
    }
}

/// The place in a text of the first character that can't stand there, or its length where only a tone or nothing was read.
#[derive(Clone, Copy, Debug, PartialEq, Eq)]
pub struct BadSyllable {
    /// An offset in bytes.
    pub place: usize,
}

impl Syllable {
    /// The syllable of a code; `None` where the code is no syllable's.
    pub fn from_code(code: u16) -> Option<Syllable>
        ensures { SomeIff result (IsTrue (is_code code)) code }
    {
        if !Parts::of_code(code).are_syllable() {
            return None;
        }
        Some(Syllable { code })
    }

    /// The syllable of these parts; `None` where a part is out of its range, or there is none besides the tone.
    pub fn of(parts: Parts) -> Option<Syllable>
        ensures { SomeIff result (IsTrue (is_syllable parts)) (code_of parts) }
    {
        if !parts.are_syllable() {
            return None;
        }
        Syllable::from_code(parts.code())
    }

    /// `initial * 512 + medial * 128 + final * 8 + tone`.
    pub fn code(self) -> u16
        ensures value { result ≡ self }
        ensures valid { IsTrue (is_code result) }
    {
        self.code
    }

    /// The parts of the syllable.
    pub fn parts(self) -> Parts
        ensures value { result ≡ parts_of self }
        ensures valid { IsTrue (is_syllable result) }
    {
        Parts::of_code(self.code())
    }
}

/// What every syllable keeps holds of each of these. It does nothing: the prover learns what a value keeps only where the
/// value is used, and doesn't know it of a whole list.
pub(crate) fn all_are_syllables(syllables: &[Syllable])
    ensures { IsTrue (list_all is_code syllables.now) }
{
    for syllable in syllables {
        let _code = syllable.code();
    }
}
