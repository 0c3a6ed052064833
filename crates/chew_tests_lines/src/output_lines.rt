//! The lines of handled keys, by their texts.

use chew_script::{Line, Note, Text, append_line, print_line};
use chew_syllable::NoMemory;
use std::alloc::Global;
use std::process::Abort;

/// The text of these characters, so often.
fn text(alloc: Global, characters: &str, times: u32) -> Result<Text, NoMemory> {
    let mut bytes = Vec::new(alloc);
    for _ in 0..times {
        bytes.extend_from_slice(characters.as_bytes())?;
    }
    Ok(Text::of(bytes))
}

/// A line of these texts, each of them so often: the preedit, what is held, the commit and the window.
fn line_of(
    alloc: Global,
    [preedit, held, commit, window]: [&str; 4],
    times: u32,
    column: u32,
    note: Note,
) -> Result<Line, NoMemory> {
    Ok(Line {
        preedit: text(alloc, preedit, times)?,
        column,
        held: text(alloc, held, times)?,
        commit: text(alloc, commit, times)?,
        window: text(alloc, window, times)?,
        note,
    })
}

/// The line is printed so.
fn prints(rt: &impl Abort, alloc: Global, line: &Line, wanted: &str) -> Result<(), NoMemory> {
    assert!(rt; print_line(alloc, line)?.bytes() == wanted.as_bytes());
    Ok(())
}

/// Each note, and the line that ends by it.
const NOTES: [(Note, &str); 7] = [
    (Note::Quiet, "策\t2\tㄕ\t測試\t1/2 1策 2測\t\n"),
    (Note::Bell, "策\t2\tㄕ\t測試\t1/2 1策 2測\tbell\n"),
    (Note::Full, "策\t2\tㄕ\t測試\t1/2 1策 2測\tfull\n"),
    (Note::Added, "策\t2\tㄕ\t測試\t1/2 1策 2測\tadded\n"),
    (Note::Forgot, "策\t2\tㄕ\t測試\t1/2 1策 2測\tforgot\n"),
    (Note::Hidden, "策\t2\tㄕ\t測試\t1/2 1策 2測\thidden\n"),
    (Note::Missing, "策\t2\tㄕ\t測試\t1/2 1策 2測\tnone\n"),
];

/// The line with this note is printed so.
fn prints_note(rt: &impl Abort, alloc: Global, note: Note, wanted: &str) -> Result<(), NoMemory> {
    let line = line_of(alloc, ["策", "ㄕ", "測試", "1/2 1策 2測"], 1, 2, note)?;
    prints(rt, alloc, &line, wanted)
}

#[test]
fn lines_with_their_notes(rt: HostRuntime) -> Result<(), NoMemory> {
    for (note, wanted) in &NOTES {
        prints_note(&rt, rt.alloc(), *note, wanted)?;
    }
    Ok(())
}

#[test]
fn a_line_of_nothing(rt: HostRuntime) -> Result<(), NoMemory> {
    let alloc = rt.alloc();
    let empty = line_of(alloc, ["", "", "", ""], 1, 0, Note::Quiet)?;
    prints(&rt, alloc, &empty, "\t0\t\t\t\t\n")
}

#[test]
fn a_line_far_longer_than_any(rt: HostRuntime) -> Result<(), NoMemory> {
    let alloc = rt.alloc();
    let wanted = longest(alloc)?;
    let line = line_of(alloc, ["測", "ㄕ", "試", "1"], 40_000, u32::MAX, Note::Forgot)?;
    prints(&rt, alloc, &line, wanted.as_str())
}

/// The texts of that line, each with what stands behind it.
fn longest(alloc: Global) -> Result<String, NoMemory> {
    let mut text = String::new(alloc);
    for (character, behind) in [
        ("測", "\t4294967295\t"),
        ("ㄕ", "\t"),
        ("試", "\t"),
        ("1", "\tforgot\n"),
    ] {
        for _ in 0..40_000 {
            text.push_str(character)?;
        }
        text.push_str(behind)?;
    }
    Ok(text)
}

#[test]
fn lines_behind_a_text(rt: HostRuntime) -> Result<(), NoMemory> {
    let alloc = rt.alloc();
    let line = line_of(alloc, ["策", "", "", ""], 1, 2, Note::Hidden)?;
    let out = twice(alloc, &line)?;
    let wanted = "context 1\n策\t2\t\t\t\thidden\n策\t2\t\t\t\thidden\n";
    assert!(rt; out.as_slice() == wanted.as_bytes());
    Ok(())
}

/// The same line twice behind another text.
fn twice(alloc: Global, line: &Line) -> Result<Vec<u8>, NoMemory> {
    let mut out = Vec::from_slice(alloc, b"context 1\n")?;
    append_line(&mut out, line)?;
    append_line(&mut out, line)?;
    Ok(out)
}
