use crate::calls::{Called, answers};
use crate::images::{FIVE_ROWS_IMAGE, NO_ROWS, ONE_ROW};
use chew_samples::FIVE_ROWS;
use std::test::Fail;

/// The text of the five rows in image order.
const FIVE_ROWS_DUMPED: &str = "是 9000 ㄕˋ\n試 300 ㄕˋ\n測 100 ㄘㄜˋ\n策 200 ㄘㄜˋ\n測試 9318 ㄘㄜˋ ㄕˋ\n";

#[test]
fn the_image_of_five_rows_is_built_checked_and_dumped(rt: HostRuntime) -> Result<(), Fail> {
    let alloc = rt.alloc();
    let image = &FIVE_ROWS_IMAGE;
    answers(&rt, alloc, Called::Build, FIVE_ROWS.as_bytes(), 0, image)?;
    answers(&rt, alloc, Called::Check, image, 0, b"rows 5 nodes 4\n")?;
    answers(
        &rt,
        alloc,
        Called::Dump,
        image,
        0,
        FIVE_ROWS_DUMPED.as_bytes(),
    )?;
    answers(
        &rt,
        alloc,
        Called::Build,
        FIVE_ROWS_DUMPED.as_bytes(),
        0,
        image,
    )?;
    Ok(())
}

#[test]
fn an_empty_text_has_an_image_of_no_rows(rt: HostRuntime) -> Result<(), Fail> {
    let alloc = rt.alloc();
    answers(&rt, alloc, Called::Build, b"", 0, &NO_ROWS)?;
    answers(&rt, alloc, Called::Build, b"# nothing\n", 0, &NO_ROWS)?;
    answers(&rt, alloc, Called::Check, &NO_ROWS, 0, b"rows 0 nodes 1\n")?;
    answers(&rt, alloc, Called::Dump, &NO_ROWS, 0, b"")?;
    Ok(())
}

#[test]
fn a_faulty_text_is_refused(rt: HostRuntime) -> Result<(), Fail> {
    let alloc = rt.alloc();
    for (text, line) in [
        ("a", "system 1 phrase\n"),
        ("策 200 ㄘㄜˋ\n測 abc ㄘㄜˋ\n", "system 2 frequency\n"),
        ("\n\n策 200 ㄘㄜ4\n", "system 3 syllable\n"),
        ("測試 1 ㄘㄜˋ\n", "system 1 lengths\n"),
        ("策 200 ㄘㄜˋ\n策 1 ㄘㄜˋ\n", "system 2 twice\n"),
    ] {
        answers(
            &rt,
            alloc,
            Called::Build,
            text.as_bytes(),
            4,
            line.as_bytes(),
        )?;
    }
    answers(&rt, alloc, Called::Build, &ONE_ROW, 4, b"system 1 phrase\n")?;
    Ok(())
}

#[test]
fn bytes_that_are_no_image_are_refused(rt: HostRuntime) -> Result<(), Fail> {
    let alloc = rt.alloc();
    let mut longer = ONE_ROW.to_vec(alloc)?;
    longer.push(0)?;
    for command in [Called::Check, Called::Dump] {
        answers(&rt, alloc, command, b"", 4, b"system image 0\n")?;
        answers(
            &rt,
            alloc,
            command,
            FIVE_ROWS.as_bytes(),
            4,
            b"system image 0\n",
        )?;
        answers(&rt, alloc, command, &ONE_ROW[..93], 4, b"system image 93\n")?;
        answers(
            &rt,
            alloc,
            command,
            longer.as_slice(),
            4,
            b"system image 94\n",
        )?;
    }
    Ok(())
}
