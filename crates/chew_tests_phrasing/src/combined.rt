//! Combined rows.

use crate::hits::{hidden, hit, hits_of, parts};
use chew_phrasing::{combine, combine_at};
use chew_plain::RowMap;
use chew_samples::{CE, SHI, five, syllable};
use chew_syllable::Run;
use std::test::Fail;

#[test]
fn the_users_rows_hide_the_systems(rt: HostRuntime) -> Result<(), Fail> {
    let system = RowMap::of(five(rt.alloc())?)?;
    let Some(run) = Run::of(&[syllable(CE), syllable(SHI)]) else {
        return Err(Fail::new("no run"));
    };
    let user = hits_of(rt.alloc(), &[hit(0, 1, "策", 7), hit(1, 1, "視", 500)])?;
    let hits = combine(rt.alloc(), &system, &run, &user)?;
    let found = hits.list();
    assert_eq!(rt; found.len(), 6);
    assert_eq!(rt; parts(&found[0]), (0, 1, "測", 100));
    assert_eq!(rt; parts(&found[1]), (0, 1, "策", 7));
    assert_eq!(rt; parts(&found[2]), (0, 2, "測試", 9318));
    assert_eq!(rt; parts(&found[3]), (1, 1, "是", 9000));
    assert_eq!(rt; parts(&found[4]), (1, 1, "視", 500));
    assert_eq!(rt; parts(&found[5]), (1, 1, "試", 300));
    Ok(())
}

#[test]
fn a_hidden_row_is_shown_nowhere(rt: HostRuntime) -> Result<(), Fail> {
    let system = RowMap::of(five(rt.alloc())?)?;
    let Some(run) = Run::of(&[syllable(CE), syllable(SHI)]) else {
        return Err(Fail::new("no run"));
    };
    let user = hits_of(
        rt.alloc(),
        &[
            hidden(hit(0, 2, "測試", 9318)),
            hidden(hit(0, 2, "策試", 1)),
            hit(0, 2, "測是", 2),
        ],
    )?;
    assert_eq!(rt; user.len(), 3);
    let hits = combine(rt.alloc(), &system, &run, &user)?;
    let found = hits.list();
    assert_eq!(rt; found.len(), 5);
    assert_eq!(rt; parts(&found[0]), (0, 1, "策", 200));
    assert_eq!(rt; parts(&found[1]), (0, 1, "測", 100));
    assert_eq!(rt; parts(&found[2]), (0, 2, "測是", 2));
    assert_eq!(rt; parts(&found[3]), (1, 1, "是", 9000));
    assert_eq!(rt; parts(&found[4]), (1, 1, "試", 300));
    assert_eq!(rt; run.list().len(), 2);
    let hits = combine_at(rt.alloc(), &system, &run, &user, 1)?;
    let found = hits.list();
    assert_eq!(rt; found.len(), 2);
    assert_eq!(rt; parts(&found[0]), (1, 1, "是", 9000));
    assert_eq!(rt; parts(&found[1]), (1, 1, "試", 300));
    Ok(())
}
