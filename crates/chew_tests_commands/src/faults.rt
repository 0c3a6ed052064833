//! Each call of the source and of the sink fails in turn. At most 40 bytes a read, the five rows are read in four calls, 40,
//! 40, 10 and 0, and the image of one row in four, 40, 40, 14 and 0; an answer is written in one.

use crate::calls::{Called, ends, failing, make_call};
use crate::images::{FIVE_ROWS_IMAGE, ONE_ROW};
use chew_outside::Fails;
use chew_samples::FIVE_ROWS;
use std::alloc::{AllocError, Global};
use std::process::Abort;
use std::test::Fail;

/// Where one of the first four reads fails the source is told, and where the fifth would, the answer.
fn reads_fail_in_turn(
    rt: &impl Abort,
    alloc: Global,
    command: Called,
    input: &[u8],
    answer: &[u8],
) -> Result<(), AllocError> {
    for read in 1..5u64 {
        let call = make_call(
            alloc,
            command,
            input,
            40,
            failing(alloc, read)?,
            Fails::never(alloc),
        )?;
        ends(rt, &call, 7, b"source\n");
    }
    let call = make_call(
        alloc,
        command,
        input,
        40,
        failing(alloc, 5)?,
        Fails::never(alloc),
    )?;
    ends(rt, &call, 0, answer);
    Ok(())
}

#[test]
fn a_failed_read_is_told(rt: HostRuntime) -> Result<(), Fail> {
    let alloc = rt.alloc();
    let image = &FIVE_ROWS_IMAGE;
    reads_fail_in_turn(&rt, alloc, Called::Build, FIVE_ROWS.as_bytes(), image)?;
    reads_fail_in_turn(&rt, alloc, Called::Check, &ONE_ROW, b"rows 1 nodes 3\n")?;
    reads_fail_in_turn(
        &rt,
        alloc,
        Called::Dump,
        &ONE_ROW,
        "測試 9318 ㄘㄜˋ ㄕˋ\n".as_bytes(),
    )?;
    Ok(())
}

/// Where the first write fails the status is this, and nothing was taken.
fn write_fails(
    rt: &impl Abort,
    alloc: Global,
    command: Called,
    input: &[u8],
    status: u8,
) -> Result<(), AllocError> {
    let call = make_call(
        alloc,
        command,
        input,
        40,
        Fails::never(alloc),
        failing(alloc, 1)?,
    )?;
    ends(rt, &call, status, b"");
    Ok(())
}

#[test]
fn a_failed_write_is_told_by_the_status(rt: HostRuntime) -> Result<(), Fail> {
    let alloc = rt.alloc();
    write_fails(&rt, alloc, Called::Build, FIVE_ROWS.as_bytes(), 8)?;
    write_fails(&rt, alloc, Called::Check, &ONE_ROW, 8)?;
    write_fails(&rt, alloc, Called::Dump, &ONE_ROW, 8)?;
    Ok(())
}

#[test]
fn a_refusal_keeps_its_status_where_its_line_is_not_written(rt: HostRuntime) -> Result<(), Fail> {
    let alloc = rt.alloc();
    write_fails(&rt, alloc, Called::Build, b"a", 4)?;
    write_fails(&rt, alloc, Called::Check, b"a", 4)?;
    write_fails(&rt, alloc, Called::Dump, b"a", 4)?;
    let call = make_call(
        alloc,
        Called::Dump,
        &ONE_ROW,
        40,
        failing(alloc, 2)?,
        failing(alloc, 1)?,
    )?;
    ends(&rt, &call, 7, b"");
    Ok(())
}
