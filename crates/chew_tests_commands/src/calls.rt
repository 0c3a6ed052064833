//! Calls of the commands over bytes in memory, and what they end with.

ghost use Rattle.std.specs.Prelude.{◌≤◌};

use chew_commands::{build_call, check_call, dump_call};
use chew_outside::{Fails, MemSink, MemSource};
use std::alloc::{AllocError, Global};
use std::process::Abort;

/// Which command is called.
#[derive(Clone, Copy)]
pub(crate) enum Called {
    Build,
    Check,
    Dump,
}

/// A call over these bytes, of which a read gives at most `cut`, with these failing calls: its status, and the sink that
/// it wrote to.
pub(crate) fn make_call(
    alloc: Global,
    command: Called,
    input: &[u8],
    cut: usize,
    reads: Fails,
    writes: Fails,
) -> Result<(u8, MemSink), AllocError>
    requires { 1 ≤ cut }
{
    let mut from = MemSource::of(input.to_vec(alloc)?, cut, reads);
    let mut sink = MemSink::of(alloc, writes);
    let status = match command {
        Called::Build => build_call(alloc, &mut from, &mut sink),
        Called::Check => check_call(alloc, &mut from, &mut sink),
        Called::Dump => dump_call(alloc, &mut from, &mut sink),
    };
    Ok((status, sink))
}

/// A call over these bytes without a fault has this status, and the sink took this; also where a read gives one byte.
pub(crate) fn answers(
    rt: &impl Abort,
    alloc: Global,
    command: Called,
    input: &[u8],
    status: u8,
    taken: &[u8],
) -> Result<(), AllocError> {
    for cut in [1usize, 4096] {
        let call = make_call(
            alloc,
            command,
            input,
            cut,
            Fails::never(alloc),
            Fails::never(alloc),
        )?;
        ends(rt, &call, status, taken);
    }
    Ok(())
}

/// The call has this status, and the sink took this.
pub(crate) fn ends(rt: &impl Abort, call: &(u8, MemSink), status: u8, taken: &[u8]) {
    assert_eq!(rt; call.0, status);
    assert_eq!(rt; call.1.bytes(), taken);
}

/// A call fails by itself.
pub(crate) fn failing(alloc: Global, call: u64) -> Result<Fails, AllocError> {
    let mut at = Vec::new(alloc);
    at.push(call)?;
    Ok(Fails { at, from: None })
}
