//! What freezes and installs answer.

ghost use Rattle.std.specs.Prelude.{◌≡◌, Some};

use crate::calls::look;
use chew_plain::{Call, Plain, Reply};
use chew_syllable::NoMemory;
use std::process::Abort;

/// The number of the snapshot that waits after a freeze.
fn freeze(rt: &impl Abort, plain: &mut Plain) -> u64
    ensures { plain.new.shape.waiting ≡ Some result }
{
    match plain.apply(&Call::Freeze).expect(rt, "memory") {
        Reply::Frozen(number) => number,
        _ => panic!(rt; "not frozen"),
    }
}

/// Whether the waiting snapshot was installed.
fn install(rt: &impl Abort, plain: &mut Plain, number: u64) -> bool
    requires { plain.now.shape.waiting ≡ Some number }
{
    let reply = plain.apply(&Call::Install(number)).expect(rt, "memory");
    matches!(reply, Reply::Installed)
}

#[test]
fn a_snapshot_waits_until_it_is_installed(rt: HostRuntime) -> Result<(), NoMemory> {
    let mut plain = Plain::of(Vec::new(rt.alloc()), 0, 2)?;
    look(&rt, &mut plain, &[]);
    assert_eq!(rt; freeze(&rt, &mut plain), 1);
    look(&rt, &mut plain, &[]);
    let number = freeze(&rt, &mut plain);
    assert_eq!(rt; number, 1);
    assert!(rt; install(&rt, &mut plain, number));
    assert_eq!(rt; freeze(&rt, &mut plain), 5);
    Ok(())
}
