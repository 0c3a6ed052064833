ghost use Rattle.std.specs.Prelude.{◌≡◌, ◌≤◌, IsTrue};
ghost use Rattle.chew_spec_syllable.specs.Syllable.{code_of, is_syllable, parts_of};

use std::marker::Model;

/// ㄙ, the last initial.
pub(crate) const LAST_INITIAL: u8 = 21;

/// ㄩ, the last medial.
pub(crate) const LAST_MEDIAL: u8 = 3;

/// ㄦ, the last final.
pub(crate) const LAST_FINAL: u8 = 13;

/// ˋ, the last tone.
pub(crate) const LAST_TONE: u8 = 4;

/// The parts of a syllable by their numbers, each counted from 1; 0 where there is none, which for the tone is the first.
#[derive(Clone, Copy, Debug, PartialEq, Eq)]
pub struct Parts {
    /// At most 21 in a syllable.
    pub initial: u8,
    /// At most 3 in a syllable.
    pub medial: u8,
    /// At most 13 in a syllable.
    pub final_: u8,
    /// At most 4 in a syllable.
    pub tone: u8,
}

impl Model for Parts {
    ghost use Rattle.chew_spec_syllable.specs.Syllable.{Parts as SyllableParts};

    ghost Value = { SyllableParts };

    ghost view = { λ p. record { initial = p.initial; medial = p.medial; final = p.final_; tone = p.tone } };

    ghost inverse = { λ p. record { initial = p.initial; medial = p.medial; final_ = p.final; tone = p.tone } };
}

impl Parts {
    /// The parts that a code holds.
    pub(crate) fn of_code(code: u16) -> Parts
        ensures { result ≡ parts_of code }
    {
        Parts {
            initial: (code / 512) as u8,
            medial: (code / 128 % 4) as u8,
            final_: (code / 8 % 16) as u8,
            tone: (code % 8) as u8,
        }
    }

    /// Whether each part is in its range, and there is one besides the tone.
    pub(crate) fn are_syllable(self) -> bool
        ensures { result ≡ is_syllable self }
    {
        if self.initial > LAST_INITIAL
            || self.medial > LAST_MEDIAL
            || self.final_ > LAST_FINAL
            || self.tone > LAST_TONE
        {
            return false;
        }
        self.initial + self.medial + self.final_ > 0
    }

    /// The code of a syllable of these parts.
    pub(crate) fn code(self) -> u16
        requires { IsTrue (is_syllable self) }
        ensures { result ≡ code_of self }
    {
        self.initial as u16 * 512
            + self.medial as u16 * 128
            + self.final_ as u16 * 8
            + self.tone as u16
    }
}
