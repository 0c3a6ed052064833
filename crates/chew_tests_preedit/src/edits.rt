//! Each edit once, of a buffer with a break and two choices, and what its runs have of them.

use crate::samples::{Wanted, choice, choose, go, has, put, six_cells, type_in};
use chew_preedit::Preedit;
use std::test::Fail;

#[test]
fn an_insert_moves_what_is_behind(rt: HostRuntime) -> Result<(), Fail> {
    let mut buffer = six_cells(1)?;
    put(&mut buffer, b'?');
    let inside = Wanted {
        cells: b"c?scs!s",
        cursor: 2,
        breaks: &[3],
        choices: &[(3, 2)],
    };
    has(&rt, &buffer, &inside);
    let mut buffer = six_cells(2)?;
    put(&mut buffer, b's');
    let at_break = Wanted {
        cells: b"csscs!s",
        cursor: 3,
        breaks: &[],
        choices: &[(0, 1), (3, 2)],
    };
    has(&rt, &buffer, &at_break);
    Ok(())
}

#[test]
fn a_full_buffer_takes_no_more(rt: HostRuntime) {
    let mut buffer = Preedit::of(2);
    type_in(&mut buffer, b"csc");
    assert!(rt; buffer.is_full());
    let two = Wanted {
        cells: b"cs",
        cursor: 2,
        breaks: &[],
        choices: &[],
    };
    has(&rt, &buffer, &two);
}

#[test]
fn a_delete_and_a_backspace_take_a_cell_out(rt: HostRuntime) -> Result<(), Fail> {
    let mut buffer = six_cells(3)?;
    assert!(rt; usize::from(buffer.cursor()) < buffer.cells().len());
    buffer.delete();
    let deleted = Wanted {
        cells: b"csc!s",
        cursor: 3,
        breaks: &[2],
        choices: &[(0, 1)],
    };
    has(&rt, &buffer, &deleted);
    assert!(rt; buffer.cursor() > 0);
    buffer.backspace();
    let erased = Wanted {
        cells: b"cs!s",
        cursor: 2,
        breaks: &[],
        choices: &[(0, 1)],
    };
    has(&rt, &buffer, &erased);
    Ok(())
}

#[test]
fn a_toggle_sets_and_clears_a_break(rt: HostRuntime) -> Result<(), Fail> {
    let mut buffer = six_cells(3)?;
    assert!(rt; buffer.can_break());
    buffer.toggle_break();
    let set = Wanted {
        cells: b"cscs!s",
        cursor: 3,
        breaks: &[2, 3],
        choices: &[(0, 1)],
    };
    has(&rt, &buffer, &set);
    assert!(rt; buffer.can_break());
    buffer.toggle_break();
    let cleared = Wanted {
        cells: b"cscs!s",
        cursor: 3,
        breaks: &[2],
        choices: &[(0, 1)],
    };
    has(&rt, &buffer, &cleared);
    go(&mut buffer, 4);
    assert!(rt; !buffer.can_break());
    Ok(())
}

#[test]
fn a_choice_takes_the_place_of_those_that_it_meets(rt: HostRuntime) -> Result<(), Fail> {
    let mut buffer = six_cells(0)?;
    choose(&mut buffer, choice(1, "策", 3)?);
    let one = Wanted {
        cells: b"cscs!s",
        cursor: 0,
        breaks: &[2],
        choices: &[(1, 3), (2, 2)],
    };
    has(&rt, &buffer, &one);
    assert!(rt; !buffer.can_choose(&choice(1, "測試", 4)?));
    assert!(rt; !buffer.can_choose(&choice(3, "測試", 4)?));
    assert!(rt; !buffer.can_choose(&choice(5, "測試", 4)?));
    choose(&mut buffer, choice(5, "是", 5)?);
    let three = Wanted {
        cells: b"cscs!s",
        cursor: 0,
        breaks: &[2],
        choices: &[(1, 3), (2, 2), (5, 5)],
    };
    has(&rt, &buffer, &three);
    Ok(())
}

#[test]
fn a_release_takes_the_first_cells_out(rt: HostRuntime) -> Result<(), Fail> {
    let mut buffer = six_cells(1)?;
    let again = buffer.copy();
    assert!(rt; buffer.cells().len() >= 2);
    buffer.release(2);
    let rest = Wanted {
        cells: b"cs!s",
        cursor: 0,
        breaks: &[],
        choices: &[(0, 2)],
    };
    has(&rt, &buffer, &rest);
    buffer.empty();
    let nothing = Wanted {
        cells: b"",
        cursor: 0,
        breaks: &[],
        choices: &[],
    };
    has(&rt, &buffer, &nothing);
    let whole = Wanted {
        cells: b"cscs!s",
        cursor: 1,
        breaks: &[2],
        choices: &[(0, 1), (2, 2)],
    };
    has(&rt, &again, &whole);
    Ok(())
}

#[test]
fn a_run_has_its_own_breaks_and_choices(rt: HostRuntime) -> Result<(), Fail> {
    let mut buffer = six_cells(0)?;
    choose(&mut buffer, choice(5, "是", 5)?);
    let runs = buffer.runs();
    assert_eq!(rt; runs.len(), 2);
    let first = &runs[0];
    let second = &runs[1];
    assert_eq!(rt; (first.start, first.codes.list().len()), (0, 4));
    assert_eq!(rt; (second.start, second.codes.list().len()), (5, 1));
    assert_eq!(rt; buffer.breaks_in(first).as_slice(), [2].as_slice());
    assert_eq!(rt; buffer.breaks_in(second).len(), 0);
    assert_eq!(rt; buffer.choices_in(first).len(), 2);
    let last = buffer.choices_in(second);
    assert_eq!(rt; last.len(), 1);
    let chosen = &last[0];
    assert_eq!(rt; (chosen.start, chosen.freq), (0, 5));
    match buffer.run_at(5) {
        Some(run) => assert_eq!(rt; run.start, 5),
        None => panic!(rt; "no run"),
    }
    assert!(rt; buffer.run_at(4).is_none());
    Ok(())
}
