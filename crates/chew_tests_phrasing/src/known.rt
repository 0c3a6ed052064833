//! Known scores, and the best of few segmentations.

use crate::hits::{hit, hits_of, shown};
use crate::phrasable::can_segment;
use chew_phrasing::{best, score};
use chew_samples::{SHI, syllable};
use chew_syllable::Run;
use std::test::Fail;

#[test]
fn the_greater_score_is_best(rt: HostRuntime) -> Result<(), Fail> {
    let rows = hits_of(
        rt.alloc(),
        &[
            hit(0, 1, "是", 0),
            hit(0, 2, "是是", 50),
            hit(0, 3, "是是是", 300),
            hit(1, 1, "是", 0),
            hit(2, 1, "是", 0),
            hit(2, 2, "是是", 50),
            hit(3, 1, "是", 512),
        ],
    )?;
    let Some(run) = Run::of(&[syllable(SHI); 4]) else {
        return Err(Fail::new("no run"));
    };
    assert!(rt; can_segment(&rows, &[], run.list().len()));
    let pieces = best(rt.alloc(), &run, &rows, &[], &[])?;
    assert_eq!(rt; pieces.len(), 2);
    assert_eq!(rt; shown(&pieces[0]), (0, "是是是", 300));
    assert_eq!(rt; shown(&pieces[1]), (3, "是", 512));
    Ok(())
}

#[test]
fn of_equal_scores_the_first_longer_piece_is_best(rt: HostRuntime) -> Result<(), Fail> {
    let rows = hits_of(
        rt.alloc(),
        &[
            hit(0, 1, "是", 0),
            hit(0, 2, "是是", 40),
            hit(1, 1, "是", 0),
            hit(1, 2, "是是", 40),
            hit(2, 1, "是", 0),
        ],
    )?;
    let Some(run) = Run::of(&[syllable(SHI); 3]) else {
        return Err(Fail::new("no run"));
    };
    assert!(rt; can_segment(&rows, &[], run.list().len()));
    let pieces = best(rt.alloc(), &run, &rows, &[], &[])?;
    assert_eq!(rt; pieces.len(), 2);
    assert_eq!(rt; shown(&pieces[0]), (0, "是是", 40));
    assert_eq!(rt; shown(&pieces[1]), (2, "是", 0));
    Ok(())
}

#[test]
fn scores_that_are_known(rt: HostRuntime) {
    assert_eq!(rt; score(&[3, 1], &[300, 512]), 16_101);
    assert_eq!(rt; score(&[2, 2], &[50, 50]), 16_100);
    assert_eq!(rt; score(&[2, 1], &[40, 0]), 11_940);
    assert_eq!(rt; score(&[1, 2], &[0, 40]), 11_940);
    assert_eq!(rt; score(&[10, 10, 10, 9], &[0, 0, 0, 0]), 96_700);
}
