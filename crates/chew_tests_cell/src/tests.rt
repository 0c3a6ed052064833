ghost use Rattle.std.specs.Prelude.{◌≡◌};

use crate::journal::Journal;
use crate::threads::{call, crew};
use chew_cell::{Cell, Chronicle};
use chew_plain::{Call, Entry};
use std::process::Abort;
use std::test::*;

/// How many passes there are, as many as a shared dictionary has at most, and how many calls each of them makes.
const PASSES: u32 = 17;

const CALLS: u64 = 2000;

/// The number of an install.
fn install_of(entry: &Entry) -> Option<u64> {
    match &entry.call {
        Call::Install(number) => Some(*number),
        _ => None,
    }
}

/// Each number below `PASSES` has made the installs from 0 to `CALLS`, in this order, and nothing else stands in the journal.
fn has_each_once_in_order(entries: &[Entry]) -> bool {
    let mut next = [0u64; PASSES as usize];
    for entry in entries {
        let Some(made) = next.get_mut(entry.who as usize) else {
            return false;
        };
        if install_of(entry) != Some(*made) {
            return false;
        }
        *made = made.wrapping_add(1);
    }
    next.iter().all(|&made| made == CALLS)
}

#[test]
fn each_call_of_seventeen_threads_stands_once_in_its_callers_order(
    rt: HostRuntime,
) -> Result<(), Fail> {
    let (cell, passes) = Cell::new(rt.alloc(), Journal::new(rt.alloc()), PASSES)?;
    let mut passes = crew(&rt, &cell, passes, CALLS);
    let Some(first) = passes.pop() else {
        return Err(Fail::new("no pass"));
    };
    let journal = cell.close(first, passes);
    assert_eq!(rt; journal.entries().len(), 34_000);
    assert!(rt; has_each_once_in_order(journal.entries()));
    Ok(())
}

#[test]
fn a_pass_that_met_another_sees_its_call(rt: HostRuntime) -> Result<(), Fail> {
    let (cell, mut passes) = Cell::new(rt.alloc(), Journal::new(rt.alloc()), 2)?;
    let Some(second) = passes.pop() else {
        return Err(Fail::new("no second pass"));
    };
    let Some(first) = passes.pop() else {
        return Err(Fail::new("no first pass"));
    };
    assert_eq!(rt; first.who(), 0);
    assert_eq!(rt; second.who(), 1);
    let first = call(&rt, &cell, first, 7);
    let (first, second) = cell.meet(first, second);
    let turn = cell.enter(&rt, second);
    assert_eq!(rt; turn.value.entries().len(), 1);
    let second = cell.leave(turn);
    passes.push_reserved(second);
    let journal = cell.close(first, passes);
    let [entry] = journal.entries() else {
        return Err(Fail::new("not one entry"));
    };
    assert_eq!(rt; entry.who, 0);
    assert_eq!(rt; install_of(entry), Some(7));
    Ok(())
}
