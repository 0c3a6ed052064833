ghost use Rattle.std.specs.Prelude.{◌≡◌, [], ◌∷◌};
ghost use Rattle.chew_spec_phrasing.specs.Usable.{piece_of_choice, piece_of_hit};

use chew_plain::Hit;
use chew_syllable::Phrase;
use std::marker::Model;

/// A phrase that the user chose for the cells of a run from `start` on, one cell a character.
#[derive(Debug, Drop)]
pub struct Choice {
    /// The run's cell that has the first character.
    pub start: u8,
    /// What stands there.
    pub phrase: Phrase,
    /// The combined frequency that the phrase had when it was chosen.
    pub freq: u32,
}

impl Model for Choice {
    ghost use Rattle.chew_spec_phrasing.specs.Usable as spec;

    ghost Value = { spec.Choice };

    ghost view = { λ choice. record { start = choice.start; phrase = choice.phrase; freq = choice.freq } };
}

impl Choice {
    /// The same choice once more. It takes no memory.
    pub fn copy(&self) -> Choice
        ensures { result ≡ self.now }
    {
        Choice {
            start: self.start,
            phrase: self.phrase.copy(),
            freq: self.freq,
        }
    }
}

impl Default for Choice {
    ghost is_default = { λ choice. choice ≡ record { start = 0; phrase = 228 ∷ 184 ∷ 128 ∷ []; freq = 0 } };

    /// 一 at the first cell, since some choice has to fill unused places.
    fn default() -> Self {
        Choice {
            start: 0,
            phrase: Phrase::of("一"),
            freq: 0,
        }
    }
}

/// A phrase that is shown for the cells of a run from `start` on, one cell a character.
#[derive(Debug, Drop)]
pub struct Piece {
    /// The run's cell that has the first character.
    pub start: u8,
    /// What stands there.
    pub phrase: Phrase,
    /// That of its row or its choice.
    pub freq: u32,
}

impl Model for Piece {
    ghost use Rattle.chew_spec_phrasing.specs.Usable as spec;

    ghost Value = { spec.Piece };

    ghost view = { λ piece. record { start = piece.start; phrase = piece.phrase; freq = piece.freq } };
}

impl Piece {
    /// The same piece once more. It takes no memory.
    pub fn copy(&self) -> Piece
        ensures { result ≡ self.now }
    {
        Piece {
            start: self.start,
            phrase: self.phrase.copy(),
            freq: self.freq,
        }
    }
}

/// What a choice shows.
pub(crate) fn piece_of_choice(choice: &Choice) -> Piece
    ensures { result ≡ piece_of_choice choice.now }
{
    Piece {
        start: choice.start,
        phrase: choice.phrase.copy(),
        freq: choice.freq,
    }
}

/// What a row shows.
pub(crate) fn piece_of_hit(hit: &Hit) -> Piece
    ensures { result ≡ piece_of_hit hit.now }
{
    Piece {
        start: hit.start,
        phrase: hit.phrase.copy(),
        freq: hit.freq,
    }
}
