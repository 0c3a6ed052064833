//! What `make` writes, beside what another program worked out: a second reading of the generator and of the keys that it
//! types, with its own phrasing by all segmentations.

use chew_make::make_call;
use chew_outside::{Fails, MemSink};
use std::alloc::Global;
use std::process::Abort;
use std::test::Fail;

/// A call for this number, with these failing writes: its status, and the sink that it wrote to.
fn made(alloc: Global, number: u64, writes: Fails) -> (u8, MemSink) {
    let mut sink = MemSink::of(alloc, writes);
    let status = make_call(alloc, number, &mut sink);
    (status, sink)
}

/// These lines are written for this number.
fn tells(rt: &impl Abort, alloc: Global, number: u64, lines: &str) {
    let (status, sink) = made(alloc, number, Fails::never(alloc));
    assert_eq!(rt; status, 0);
    assert_eq!(rt; sink.bytes(), lines.as_bytes());
}

#[test]
fn the_lines_of_seven_are_as_worked_out(rt: HostRuntime) {
    let lines = "steps 4096\nkeys 10187\ncommits 958\nentries 5640\nlife 2058\npairs 7\n";
    tells(&rt, rt.alloc(), 7, lines);
}

#[test]
fn the_lines_of_the_greatest_number_are_as_worked_out(rt: HostRuntime) {
    let lines = "steps 4096\nkeys 10163\ncommits 983\nentries 5591\nlife 2036\npairs 7\n";
    tells(&rt, rt.alloc(), u64::MAX, lines);
}

#[test]
fn a_sink_that_fails_at_its_first_write_is_told(rt: HostRuntime) -> Result<(), Fail> {
    let alloc = rt.alloc();
    let once = Fails {
        at: vec![in alloc; 1u64]?,
        from: None,
    };
    let (status, sink) = made(alloc, 7, once);
    assert_eq!(rt; status, 8);
    assert_eq!(rt; sink.bytes(), b"".as_slice());
    Ok(())
}
