//! Hundreds of edits, one after another, against the second reading of the buffer.

ghost use Rattle.std.specs.Prelude.{◌≤◌};

use crate::marked::Marked;
use crate::samples::{cell, choice};
use chew_preedit::Preedit;
use std::test::Fail;

/// How many edits a walk has.
const EDITS: u32 = 800;

/// The phrases that are chosen, of one to three cells.
const TEXTS: [&str; 3] = ["測", "測試", "測試是"];

/// The next of a fixed list of numbers.
fn next(number: u32) -> u32 {
    number.wrapping_mul(1_664_525).wrapping_add(1_013_904_223)
}

/// One of three letters: most are syllables.
fn letter_by(choose: u32) -> u8
    ensures low { 32 ≤ result }
    ensures high { result ≤ 126 }
{
    match choose % 8 {
        0 => b'!',
        1..4 => b'c',
        _ => b's',
    }
}

/// One edit, by a number, of the buffer and of its second reading.
fn edit(buffer: &mut Preedit, marked: &mut Marked, number: u32, turn: u32) -> Result<(), Fail> {
    let choose = number / 256;
    let place = (choose % 40) as u8;
    match number / 65_536 % 16 {
        0..6 => {
            let letter = letter_by(choose);
            if !buffer.is_full() {
                buffer.insert(cell(letter));
                marked.insert(letter)?;
            }
        }
        6 => {
            if usize::from(buffer.cursor()) < buffer.cells().len() {
                marked.delete(usize::from(buffer.cursor()));
                buffer.delete();
            }
        }
        7 => {
            if buffer.cursor() > 0 {
                buffer.backspace();
                marked.backspace();
            }
        }
        8..11 => {
            if usize::from(place) <= buffer.cells().len() {
                buffer.move_to(place);
                marked.move_to(usize::from(place));
            }
        }
        11..13 => {
            if buffer.can_break() {
                buffer.toggle_break();
                marked.toggle();
            }
        }
        13..15 => {
            let text = TEXTS[(choose / 64 % 3) as usize];
            let chosen = choice(place, text, turn)?;
            if chosen.freq <= 99_999_999 && buffer.can_choose(&chosen) {
                marked.choose(usize::from(place), chosen.phrase.characters(), turn);
                buffer.choose(chosen);
            }
        }
        _ => {
            let count = place % 4;
            if usize::from(count) <= buffer.cells().len() && !marked.is_inside(usize::from(count)) {
                buffer.release(count);
                marked.release(usize::from(count));
            }
        }
    }
    Ok(())
}

#[test]
fn edits_agree_with_a_second_reading(rt: HostRuntime) -> Result<(), Fail> {
    let mut buffer = Preedit::of(39);
    let mut marked = Marked::new(rt.alloc());
    let mut number = 1u32;
    for turn in 1..EDITS {
        number = next(number);
        edit(&mut buffer, &mut marked, number, turn)?;
        marked.is_same(&rt, &buffer);
    }
    assert!(rt; marked.len() > 0);
    Ok(())
}
