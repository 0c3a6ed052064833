ghost use Rattle.std.specs.Prelude.{◌≡◌, ◌<◌, ◌≤◌, ◌-◌, ◌*◌, ◌^◌, sum, slice_index};
ghost use Rattle.std.specs.Cmp.Lexicographic.{slice_cmp};
ghost use Rattle.std.specs.Ordering.{nat_cmp};
ghost use Rattle.chew_spec_phrasing.specs.Score.{difference};
ghost use Rattle.chew_phrasing.specs.Counts.{no_counts, one_more, sum_over};

use chew_syllable::KEY_LIMIT;
use std::cmp::Ordering;
use std::marker::Model;

/// How many pieces of a segmentation have each length: of 1 syllable first.
#[derive(Clone, Copy, Drop)]
pub(crate) struct Counts {
    of: [u8; KEY_LIMIT],
}

impl Model for Counts {
    ghost use Rattle.std.specs.Prelude.{◌≡◌, List, ℕ, length};

    ghost Value = { List ℕ };

    ghost view = { λ counts. counts.of };

    ghost inverse = { λ counts. record { of = counts } };

    ghost invariant = { λ counts. length counts.of ≡ 11 };
}

impl Counts {
    /// Those of no pieces.
    pub(crate) fn none() -> Counts
        ensures { result ≡ no_counts }
    {
        Counts { of: [0; KEY_LIMIT] }
    }

    /// Those with one piece more of this length.
    pub(crate) fn one_more(&self, len: usize) -> Counts
        requires some { 1 ≤ len }
        requires short { len ≤ 11 }
        requires few { slice_index self.now (len - 1) < 255 }
        ensures { result ≡ one_more len self.now }
    {
        let mut of = self.of;
        of[len - 1] += 1;
        Counts { of }
    }

    /// How the lengths of two stand to each other, in an order that has no further meaning.
    pub(crate) fn order(&self, other: &Counts) -> Ordering
        ensures { result ≡ slice_cmp nat_cmp self.now other.now }
    {
        self.of.as_slice().cmp(other.of.as_slice())
    }

    /// How many pieces there are.
    pub(crate) fn pieces(&self) -> u64
        ensures value { result ≡ sum self.now }
        ensures small { result ≤ 2805 }
    {
        let mut pieces = 0;
        for count in self.of.as_slice() {
            pieces += u64::from(*count);
        }
        pieces
    }

    /// The sum of the differences of a length to those of the pieces.
    pub(crate) fn differences(&self, len: usize) -> u32
        requires { len ≤ 11 }
        ensures value { result ≡ sum_over (difference len) 1 self.now }
        ensures small { result ≤ 2 ^ 16 }
    {
        let mut sum = 0;
        for (place, count) in self.of.as_slice().iter().enumerate() {
            sum += u32::from(*count) * len.abs_diff(place + 1) as u32;
        }
        sum
    }
}
