ghost use Rattle.std.specs.Prelude.{◌≡◌, ◌≤◌, [], IsTrue, length, nat_lt};
ghost use Rattle.chew_spec_layout.specs.Pinyin.{fed_spelling, is_held_spelling, is_pinyin_letter, whole_spelling, with_spelling_letter};
ghost use Rattle.chew_syllable.specs.Step.{step_of};

use crate::turn::{syllable_of, tone_of};
use arrayvec::{ArrayString, ArrayVec};
use chew_syllable::{BACKSPACE, Step, array_of, text_of};
use std::marker::Model;

/// Pinyin, with at most six letters that were typed.
#[derive(Debug, Drop)]
pub struct Pinyin {
    held: ArrayVec<u8, 6>,
}

impl Model for Pinyin {
    ghost use Rattle.std.specs.Prelude.{List, ℕ, IsTrue};
    ghost use Rattle.chew_spec_layout.specs.Pinyin.{is_held_spelling};

    ghost Value = { List ℕ };

    ghost view = { λ a. a.held.items };

    ghost invariant = { λ a. IsTrue (is_held_spelling a.held.items) };
}

impl Pinyin {
    /// A layout that holds nothing.
    pub fn of() -> Pinyin
        ensures { result ≡ [] }
    {
        Pinyin {
            held: ArrayVec::new(),
        }
    }

    /// Takes one letter more; refused where six are held.
    fn feed_letter(&mut self, key: u8) -> Step
        requires { IsTrue (is_pinyin_letter key) }
        ensures step { step_of result ≡ (with_spelling_letter self.old key).step }
        ensures held { self.new ≡ (with_spelling_letter self.old key).held }
        ensures valid { IsTrue (is_held_spelling self.new) }
    {
        if self.held.is_full() {
            return Step::Refused;
        }
        self.held.push(key);
        Step::Kept
    }

    /// Ends the syllable with this tone; refused where the letters spell none.
    fn feed_tone(&mut self, tone: u8) -> Step
        requires { tone ≤ 4 }
        ensures step { step_of result ≡ (whole_spelling self.old tone).step }
        ensures held { self.new ≡ (whole_spelling self.old tone).held }
        ensures valid { IsTrue (is_held_spelling self.new) }
    {
        match syllable_of(self.held.as_slice(), tone) {
            Some(syllable) => {
                self.held.clear();
                Step::Whole(syllable)
            }
            None => Step::Refused,
        }
    }

    /// Takes a key, given as its character in ASCII, or 8 for Backspace.
    #[tactic(auto, unfolding(chew_spec_layout::specs::Pinyin::fed_spelling))]
    pub fn feed(&mut self, key: u8) -> Step
        ensures step { step_of result ≡ (fed_spelling self.old key).step }
        ensures held { self.new ≡ (fed_spelling self.old key).held }
        ensures valid { IsTrue (is_held_spelling self.new) }
    {
        if key.is_ascii_lowercase() {
            return self.feed_letter(key);
        }
        if self.held.is_empty() {
            return Step::NotMine;
        }
        if let Some(tone) = tone_of(key) {
            return self.feed_tone(tone);
        }
        if key == BACKSPACE {
            self.held.pop();
            return Step::Erased;
        }
        Step::NotMine
    }

    /// Lets go of what it holds.
    pub fn clear(&mut self)
        ensures { self.new ≡ [] }
    {
        self.held.clear();
    }

    /// Whether it holds a letter.
    pub fn holds(&self) -> bool
        ensures value { result ≡ nat_lt 0 (length self.now) }
        ensures valid { IsTrue (is_held_spelling self.now) }
    {
        !self.held.is_empty()
    }

    /// The letters that it holds.
    #[tactic(auto, using(crate::proofs::Text::held_text))]
    pub fn shown(&self) -> ArrayString<12>
        ensures { result.bytes ≡ self.now }
    {
        text_of(self.held.as_slice())
    }

    /// The same layout once more. It takes no memory.
    pub fn copy(&self) -> Pinyin
        ensures { result ≡ self.now }
    {
        Pinyin {
            held: array_of(self.held.as_slice()),
        }
    }
}
