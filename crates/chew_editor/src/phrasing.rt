ghost use Rattle.std.specs.Prelude.{◌≡◌, IfOk, map};
ghost use Rattle.chew_spec_preedit.specs.PlacedRun.{breaks_in, choices_in};
ghost use Rattle.chew_spec_editor.specs.Finish.{best_of_run, hits_in, phrased, renewed};
ghost use Rattle.chew_plain.specs.Call.{reply_of};
ghost use Rattle.chew_editor.specs.Phrasable.{ArePhrasable, IsPhrasable};

use crate::renewing::renewed;
use chew_phrasing::{Piece, best_of_run};
use chew_plain::{Hit, Lexicon, Reply};
use chew_preedit::{PlacedRun, Preedit};
use chew_syllable::NoMemory;
use std::alloc::Global;
use std::cmp::min;

/// The pieces once the runs are phrased, each by the reply to its look-up.
pub(crate) fn phrased<L: Lexicon>(
    alloc: Global,
    system: &L,
    preedit: &Preedit,
    pieces: Vec<Piece>,
    runs: &[PlacedRun],
    replies: &[Reply],
) -> Result<Vec<Piece>, NoMemory>
    requires { ArePhrasable (L.rows system.now) preedit.now runs.now (map reply_of replies.now) }
    ensures { IfOk result (λ all. all.items ≡ phrased (L.rows system.now) preedit.now pieces.items runs.now (map reply_of replies.now)) }
{
    let mut phrased = pieces;
    let count = min(runs.len(), replies.len());
    for i in 0..count {
        let found = hits_in(&replies[i]);
        phrased = phrased_anew(alloc, system, preedit, &phrased, &runs[i], found)?;
    }
    Ok(phrased)
}

/// The pieces with the best ones of a run, given what its look-up found.
fn phrased_anew<L: Lexicon>(
    alloc: Global,
    system: &L,
    preedit: &Preedit,
    pieces: &[Piece],
    run: &PlacedRun,
    hits: &[Hit],
) -> Result<Vec<Piece>, NoMemory>
    requires { IsPhrasable (L.rows system.now) preedit.now run.now hits.now }
    ensures { IfOk result (λ all. all.items ≡ renewed run.now (best_of_run (L.rows system.now) preedit.now run.now hits.now) pieces.now) }
{
    let breaks = preedit.breaks_in(run);
    let choices = preedit.choices_in(run);
    let best = best_of_run(
        alloc,
        system,
        &run.codes,
        hits,
        breaks.as_slice(),
        choices.as_slice(),
    )?;
    renewed(alloc, run, &best, pieces)
}

/// The rows that the reply to a look-up gives.
pub(crate) fn hits_in(reply: &Reply) -> &[Hit]
    ensures { result.now ≡ hits_in (reply_of reply.now) }
{
    match reply {
        Reply::Rows(hits) => hits.list(),
        _ => &[],
    }
}
