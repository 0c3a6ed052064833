ghost use Rattle.std.specs.Prelude.{◌≡◌, ◌+◌, ◌++◌, ◌≤◌, All, IfOk, OnOk, filter, nat_le};
ghost use Rattle.chew_spec_phrasing.specs.Usable.{phrase_len};
ghost use Rattle.chew_spec_preedit.specs.PlacedRun.{piece_on, placed, run_end};
ghost use Rattle.chew_spec_editor.specs.Finish.{renewed};

use chew_phrasing::Piece;
use chew_preedit::PlacedRun;
use chew_syllable::NoMemory;
use std::alloc::Global;

/// The pieces with those of a run anew, which are told by their places in the run: those before the run and those behind
/// it stay.
pub(crate) fn renewed(
    alloc: Global,
    run: &PlacedRun,
    best: &[Piece],
    pieces: &[Piece],
) -> Result<Vec<Piece>, NoMemory>
    requires { All (λ piece. run.now.start + piece.start ≤ 255) best.now }
    ensures { IfOk result (λ all. all.items ≡ renewed run.now (placed run.now best.now) pieces.now) }
{
    let mut all = Vec::new(alloc);
    push_before(&mut all, run, pieces)?;
    push_placed(&mut all, run, best)?;
    push_behind(&mut all, run, pieces)?;
    Ok(all)
}

/// Adds the pieces that end where the run begins, or before.
fn push_before(all: &mut Vec<Piece>, run: &PlacedRun, pieces: &[Piece]) -> Result<(), NoMemory>
    ensures { OnOk result (all.new.items ≡ all.old.items ++ filter (λ piece. nat_le (piece.start + phrase_len piece.phrase) run.now.start) pieces.now) }
{
    for piece in pieces {
        if ends_before(piece, run) {
            all.push(piece.copy())?;
        }
    }
    Ok(())
}

/// Adds the pieces of the run, by their places in the buffer.
fn push_placed(all: &mut Vec<Piece>, run: &PlacedRun, best: &[Piece]) -> Result<(), NoMemory>
    requires { All (λ piece. run.now.start + piece.start ≤ 255) best.now }
    ensures { OnOk result (all.new.items ≡ all.old.items ++ placed run.now best.now) }
{
    for piece in best {
        all.push(piece_on(piece, run.start))?;
    }
    Ok(())
}

/// Adds the pieces that begin where the run ends, or behind.
fn push_behind(all: &mut Vec<Piece>, run: &PlacedRun, pieces: &[Piece]) -> Result<(), NoMemory>
    ensures { OnOk result (all.new.items ≡ all.old.items ++ filter (λ piece. nat_le (run_end run.now) piece.start) pieces.now) }
{
    for piece in pieces {
        if begins_behind(piece, run) {
            all.push(piece.copy())?;
        }
    }
    Ok(())
}

/// Whether the piece ends where the run begins, or before.
fn ends_before(piece: &Piece, run: &PlacedRun) -> bool
    ensures { result ≡ nat_le (piece.now.start + phrase_len piece.now.phrase) run.now.start }
{
    usize::from(piece.start) + piece.phrase.characters() <= usize::from(run.start)
}

/// Whether the piece begins where the run ends, or behind.
fn begins_behind(piece: &Piece, run: &PlacedRun) -> bool
    ensures { result ≡ nat_le (run_end run.now) piece.now.start }
{
    run.end() <= usize::from(piece.start)
}

/// The piece so many cells further on.
fn piece_on(piece: &Piece, cells: u8) -> Piece
    requires { cells + piece.now.start ≤ 255 }
    ensures { result ≡ piece_on cells piece.now }
{
    Piece {
        start: cells + piece.start,
        phrase: piece.phrase.copy(),
        freq: piece.freq,
    }
}
