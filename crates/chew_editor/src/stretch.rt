ghost use Rattle.std.specs.Prelude.{◌≡◌, ◌≤◌, length};
ghost use Rattle.chew_editor.specs.Spans.{goes_on, longer, part_in, span_of};

use chew_phrasing::Piece;
use std::marker::Model;

/// Some shown cells, and whether each of them is a piece of one syllable.
#[derive(Clone, Copy)]
pub(crate) struct Stretch {
    /// The place of the first cell.
    start: usize,
    /// The place behind the last cell.
    end: usize,
    is_single: bool,
}

impl Model for Stretch {
    ghost use Rattle.chew_editor.specs.Spans as spec;

    ghost Value = { spec.Span };

    ghost view = { λ s. record { start = s.start; end = s.end; is_single = s.is_single } };

    ghost inverse = { λ s. record { start = s.start; end = s.end; is_single = s.is_single } };
}

impl Stretch {
    /// A piece by itself.
    pub(crate) fn of(piece: &Piece) -> Stretch
        ensures { result ≡ span_of piece.now }
    {
        let len = piece.phrase.characters();
        let start = usize::from(piece.start);
        Stretch {
            start,
            end: start + len,
            is_single: len == 1,
        }
    }

    /// Whether the piece begins right behind it, both are of single syllables, and no break parts them.
    pub(crate) fn goes_on(self, breaks: &[u8], piece: &Piece) -> bool
        ensures { result ≡ goes_on breaks.now self piece.now }
    {
        if !self.is_single {
            return false;
        }
        if piece.phrase.characters() != 1 {
            return false;
        }
        if usize::from(piece.start) != self.end {
            return false;
        }
        !breaks.contains(&piece.start)
    }

    /// With a piece of one syllable more.
    pub(crate) fn longer(self, piece: &Piece) -> Stretch
        ensures { result ≡ longer self piece.now }
    {
        Stretch {
            start: self.start,
            end: usize::from(piece.start) + piece.phrase.characters(),
            is_single: true,
        }
    }

    /// What a list has for its cells.
    pub(crate) fn part<T>(self, items: &[T]) -> &[T]
        requires in_order { self.start ≤ self.end }
        requires within { self.end ≤ length items.now }
        ensures { result.now ≡ part_in self items.now }
    {
        &items[self.start..self.end]
    }
}
