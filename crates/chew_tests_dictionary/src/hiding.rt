//! What hides answer, and what they leave.

use crate::calls::{forgets, has, hides, learns, look};
use crate::five_rows::{CE, SHI, syllable};
use chew_plain::{Hits, Plain, Reply};
use chew_syllable::NoMemory;
use std::process::Abort;

#[test]
fn a_phrase_of_the_system_is_hidden_once(rt: HostRuntime) -> Result<(), NoMemory> {
    let mut plain = Plain::of(Vec::new(rt.alloc()), 0, 65_536)?;
    let key = [syllable(CE), syllable(SHI)];
    hides(&rt, &mut plain, &key, "測試", &Reply::Hid);
    hides(&rt, &mut plain, &key, "測試", &Reply::NotThere);
    is_hidden(&rt, &look(&rt, &mut plain, &key));
    has(&rt, &plain, 0, 1);
    Ok(())
}

/// The one hit is 測試, hidden.
fn is_hidden(rt: &impl Abort, hits: &Hits) {
    let found = hits.list();
    assert_eq!(rt; found.len(), 1);
    let hit = &found[0];
    assert_eq!(rt;
        (hit.start, hit.len, hit.phrase.text(), hit.freq, hit.hidden),
        (0, 2, "測試", 0, true)
    );
}

#[test]
fn a_hidden_phrase_is_forgotten(rt: HostRuntime) -> Result<(), NoMemory> {
    let mut plain = Plain::of(Vec::new(rt.alloc()), 0, 65_536)?;
    let key = [syllable(CE), syllable(SHI)];
    hides(&rt, &mut plain, &key, "測試", &Reply::Hid);
    forgets(&rt, &mut plain, &key, "測試", &Reply::Forgot);
    has(&rt, &plain, 0, 0);
    Ok(())
}

#[test]
fn a_full_map_hides_nothing_new(rt: HostRuntime) -> Result<(), NoMemory> {
    let mut plain = Plain::of(Vec::new(rt.alloc()), 0, 1)?;
    learns(&rt, &mut plain, &[syllable(CE)], "策", (200, 200), (200, 0));
    hides(
        &rt,
        &mut plain,
        &[syllable(CE), syllable(SHI)],
        "測試",
        &Reply::Full,
    );
    has(&rt, &plain, 1, 1);
    Ok(())
}

#[test]
fn a_learn_brings_a_hidden_phrase_back(rt: HostRuntime) -> Result<(), NoMemory> {
    let mut plain = Plain::of(Vec::new(rt.alloc()), 0, 2)?;
    let key = [syllable(CE), syllable(SHI)];
    learns(&rt, &mut plain, &key, "策是", (0, 0), (1, 0));
    learns(&rt, &mut plain, &key, "測試", (9318, 9318), (9318, 1));
    hides(&rt, &mut plain, &key, "測試", &Reply::Hid);
    // The hidden phrase's 9318 doesn't count: the greatest of the key is 1.
    learns(&rt, &mut plain, &key, "策是", (0, 0), (2, 2));
    learns(&rt, &mut plain, &key, "測試", (9318, 9318), (9318, 3));
    are_shown(&rt, &look(&rt, &mut plain, &key));
    has(&rt, &plain, 4, 2);
    Ok(())
}

/// Both hits are shown.
fn are_shown(rt: &impl Abort, hits: &Hits) {
    assert_eq!(rt; hits.list().len(), 2);
    assert!(rt; hits.list().iter().all(|hit| !hit.hidden));
}
