//! Hits of small runs, and what hits and pieces tell.

ghost use Rattle.std.specs.Prelude.{◌+◌, ◌≤◌};

use chew_phrasing::Piece;
use chew_plain::Hit;
use chew_syllable::{NoMemory, Phrase};
use std::alloc::Global;

/// A hit, where the text has so many characters.
pub(crate) fn hit(start: u8, len: u8, text: &str, freq: u32) -> Option<Hit>
    requires inside { start + len ≤ 39 }
    requires some { 1 ≤ len }
    requires few { len ≤ 11 }
    requires freq { freq ≤ 99_999_999 }
{
    let Ok(phrase) = Phrase::read(text.as_bytes()) else {
        return None;
    };
    if phrase.characters() != usize::from(len) {
        return None;
    }
    Some(Hit {
        start,
        len,
        phrase,
        freq,
        hidden: false,
    })
}

/// The hit, hidden.
pub(crate) fn hidden(hit: Option<Hit>) -> Option<Hit> {
    let hit = hit?;
    Some(Hit {
        start: hit.start,
        len: hit.len,
        phrase: hit.phrase.copy(),
        freq: hit.freq,
        hidden: true,
    })
}

/// The hits that there are.
pub(crate) fn hits_of(alloc: Global, hits: &[Option<Hit>]) -> Result<Vec<Hit>, NoMemory> {
    let mut list = Vec::new(alloc);
    for hit in hits {
        if let Some(hit) = hit {
            list.push(hit.copy())?;
        }
    }
    Ok(list)
}

/// What a hit tells.
pub(crate) fn parts(hit: &Hit) -> (u8, u8, &str, u32) {
    (hit.start, hit.len, hit.phrase.text(), hit.freq)
}

/// What a piece tells.
pub(crate) fn shown(piece: &Piece) -> (u8, &str, u32) {
    (piece.start, piece.phrase.text(), piece.freq)
}
