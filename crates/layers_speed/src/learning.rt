ghost use Rattle.std.specs.Prelude.{◌≡◌, IsTrue, false};
ghost use Rattle.chew_spec_dictionary.specs.Call.{is_proper};
ghost use Rattle.chew_spec_dictionary.specs.History.{is_keepers};
ghost use Rattle.chew_plain.specs.Call.{call_of};

use crate::figures::print_calls;
use crate::work::Work;
use chew_layers::Layers;
use chew_measuring::Failure;
use chew_plain::{Call, Plain};
use chew_syllable::{KeyRow, NoMemory, USER_ROWS_LIMIT};
use chew_trie_read::Trie;
use chew_trie_write::write_image;
use std::alloc::Global;
use std::io::Print;
use std::sync::Arc;
use std::time::CpuClock;

/// The most pairs of a user's dictionary.
const CAP: u32 = USER_ROWS_LIMIT;

/// The number of who makes the calls.
const USER: u32 = 1;

/// How far the next row is from the one before it. No number of rows below it has a factor of it, since it is a prime.
const STEP: usize = 500_009;

/// The user's dictionary, as a plain map and in layers.
#[derive(Drop)]
pub(crate) struct Learning {
    pub(crate) alloc: Global,
    pub(crate) plain: Plain,
    pub(crate) layers: Layers,
}

impl Learning {
    /// The empty map.
    pub(crate) fn new(alloc: Global) -> Result<Learning, Failure> {
        let Ok(base) = Trie::of(write_image(alloc, &[])?) else {
            return Err(Failure::Form);
        };
        if base.total() > USER_ROWS_LIMIT {
            return Err(Failure::Form);
        }
        Ok(Learning {
            alloc,
            plain: Plain::of(Vec::new(alloc), 0, CAP)?,
            layers: Layers::of(alloc, Arc::new(alloc, base)?, 0, CAP),
        })
    }
}

/// Makes a call of the plain map.
fn call_plain(plain: &mut Plain, call: &Call) -> Result<(), NoMemory>
    requires proper { IsTrue (is_proper (call_of call.now)) }
    requires user { is_keepers (call_of call.now) ≡ false }
{
    let _reply = plain.apply(call)?;
    Ok(())
}

/// The row that comes after so many others, in an order of no meaning.
fn row_after(rows: &[KeyRow], count: usize) -> Option<&KeyRow> {
    let place = count.wrapping_mul(STEP).checked_rem(rows.len())?;
    rows.get(place)
}

/// Does so many pieces of work by the plain map.
fn work_plainly(
    plain: &mut Plain,
    work: Work,
    rows: &[KeyRow],
    count: usize,
) -> Result<(), NoMemory> {
    for done in 0..count {
        if let Some(row) = row_after(rows, done) {
            if let Some(call) = work.call(row) {
                call_plain(plain, &call)?;
            }
        }
    }
    Ok(())
}

/// Does so many pieces of work in layers.
fn work_in_layers(
    layers: &mut Layers,
    work: Work,
    rows: &[KeyRow],
    count: usize,
) -> Result<(), NoMemory> {
    for done in 0..count {
        if let Some(row) = row_after(rows, done) {
            if let Some(call) = work.call(row) {
                let _reply = layers.apply(USER, &call)?;
            }
        }
    }
    Ok(())
}

/// Does so many pieces of work by both, and prints how long each took.
pub(crate) fn measure_calls<R: CpuClock + Print>(
    rt: &R,
    learning: &mut Learning,
    work: Work,
    rows: &[KeyRow],
    count: usize,
) -> Result<(), Failure> {
    let start = rt.thread_cpu_time()?;
    work_plainly(&mut learning.plain, work, rows, count)?;
    let between = rt.thread_cpu_time()?;
    work_in_layers(&mut learning.layers, work, rows, count)?;
    let end = rt.thread_cpu_time()?;
    print!(rt; "{count} {}, plain map: ", work.name())?;
    print_calls(rt, count as u64, between.saturating_sub(start))?;
    print!(rt; "{count} {}, layers: ", work.name())?;
    print_calls(rt, count as u64, end.saturating_sub(between))
}
