//! What learns and forgets answer, and what they leave.

use crate::calls::{are_same, forgets, has, learn, learns};
use crate::five_rows::{CE, SHI, syllable};
use chew_plain::{Plain, Reply};
use chew_syllable::NoMemory;

#[test]
fn a_phrase_learnt_twice_rises(rt: HostRuntime) -> Result<(), NoMemory> {
    let mut plain = Plain::of(Vec::new(rt.alloc()), 0, 65_536)?;
    let key = [syllable(CE), syllable(SHI)];
    learns(&rt, &mut plain, &key, "測試", (9318, 9318), (9318, 0));
    learns(&rt, &mut plain, &key, "測試", (9318, 9318), (9319, 1));
    has(&rt, &plain, 2, 1);
    Ok(())
}

#[test]
fn a_full_map_learns_only_what_it_holds(rt: HostRuntime) -> Result<(), NoMemory> {
    let mut plain = Plain::of(Vec::new(rt.alloc()), 0, 2)?;
    let ce = syllable(CE);
    let shi = syllable(SHI);
    learns(&rt, &mut plain, &[ce], "策", (200, 200), (200, 0));
    learns(&rt, &mut plain, &[shi], "是", (9000, 9000), (9000, 1));
    let attempt = learn(&rt, &mut plain, &[ce, shi], "測試", 9318, 9318);
    assert!(rt; are_same(&attempt, &Reply::Full));
    has(&rt, &plain, 2, 2);
    learns(&rt, &mut plain, &[ce], "策", (200, 200), (201, 2));
    has(&rt, &plain, 3, 2);
    Ok(())
}

#[test]
fn a_phrase_of_the_user_is_forgotten_once(rt: HostRuntime) -> Result<(), NoMemory> {
    let mut plain = Plain::of(Vec::new(rt.alloc()), 0, 65_536)?;
    let key = [syllable(CE), syllable(SHI)];
    learns(&rt, &mut plain, &key, "策是", (0, 9318), (1, 0));
    forgets(&rt, &mut plain, &key, "策是", &Reply::Forgot);
    forgets(&rt, &mut plain, &key, "策是", &Reply::NotThere);
    has(&rt, &plain, 1, 0);
    Ok(())
}
