//! The text of a dictionary: the rows of good texts, the first fault of bad ones, and what is printed.

use chew_rows::{RowCause, RowsFault, print_rows, read_rows};
use chew_syllable::NoMemory;
use std::alloc::Global;
use std::process::Abort;
use std::test::Fail;

/// The lines that the rows of a text are printed as, or its first faulty line and why.
type Outcome = Result<&'static str, (u32, RowCause)>;

/// The text has this outcome.
fn gives(rt: &impl Abort, alloc: Global, text: &[u8], want: &Outcome) -> Result<(), NoMemory> {
    match (read_rows(alloc, text), want) {
        (Ok(rows), Ok(lines)) => {
            let printed = print_rows(alloc, rows.as_slice())?;
            assert_eq!(rt; printed.as_slice(), lines.as_bytes());
        }
        (Err(RowsFault::Bad { line, cause }), Err(fault)) => assert_eq!(rt; (line, cause), *fault),
        (Err(RowsFault::NoMemory), _) => return Err(NoMemory),
        (Ok(_), Err(fault)) => panic!(rt; "{fault:?} is not told of {text:?}"),
        (Err(fault), Ok(lines)) => panic!(rt; "{fault:?} in place of {lines}"),
    }
    Ok(())
}

#[test]
fn good_texts_give_their_rows(rt: HostRuntime) -> Result<(), Fail> {
    let texts = [
        ("", ""),
        ("\n\r\n \t\n", ""),
        ("# 測 100 ㄘㄜˋ", ""),
        ("測 100 ㄘㄜˋ", "測 100 ㄘㄜˋ\n"),
        ("測 100 ㄘㄜˋ\r\n策 200 ㄘㄜˋ\r\n", "測 100 ㄘㄜˋ\n策 200 ㄘㄜˋ\n"),
        ("測 100 ㄘㄜˋ\r", "測 100 ㄘㄜˋ\n"),
        ("\t測\t\t100 \tㄘㄜˋ\t", "測 100 ㄘㄜˋ\n"),
        ("測 100 ㄘㄜˋ # ㄕˋ\n", "測 100 ㄘㄜˋ\n"),
        ("測 100 ㄘㄜˋ#\r\r\n", "測 100 ㄘㄜˋ\n"),
        ("#\n\n測試 9318 ㄘㄜˋ ㄕˋ\n\n", "測試 9318 ㄘㄜˋ ㄕˋ\n"),
        ("測 000000000007 ㄘㄜˋ", "測 7 ㄘㄜˋ\n"),
        ("測 0000 ㄘㄜˋ", "測 0 ㄘㄜˋ\n"),
        ("測 99999999 ㄘㄜˋ", "測 99999999 ㄘㄜˋ\n"),
        ("是 1 ㄕˋ\n是 2 ㄕ\n", "是 1 ㄕˋ\n是 2 ㄕ\n"),
        ("是是 1 ㄕ ㄕ\n是 2 ㄕ\n", "是是 1 ㄕ ㄕ\n是 2 ㄕ\n"),
        (
            "ㄅㄆㄇㄈㄉㄊㄋㄌㄍㄎㄏ 1 ㄅ ㄆ ㄇ ㄈ ㄉ ㄊ ㄋ ㄌ ㄍ ㄎ ㄏ",
            "ㄅㄆㄇㄈㄉㄊㄋㄌㄍㄎㄏ 1 ㄅ ㄆ ㄇ ㄈ ㄉ ㄊ ㄋ ㄌ ㄍ ㄎ ㄏ\n",
        ),
    ];
    for (text, lines) in texts {
        gives(&rt, rt.alloc(), text.as_bytes(), &Ok(lines))?;
        gives(&rt, rt.alloc(), lines.as_bytes(), &Ok(lines))?;
    }
    Ok(())
}

/// Each text is refused for the line and the cause beside it.
fn fails(rt: &impl Abort, alloc: Global, texts: &[(&str, u32, RowCause)]) -> Result<(), NoMemory> {
    for (text, line, cause) in texts {
        gives(rt, alloc, text.as_bytes(), &Err((*line, *cause)))?;
    }
    Ok(())
}

#[test]
fn faults_of_the_first_and_of_the_last_line(rt: HostRuntime) -> Result<(), Fail> {
    let texts = [
        ("a 1 ㄘㄜˋ\n策 200 ㄘㄜˋ\n", 1, RowCause::Phrase),
        ("策 200 ㄘㄜˋ\n是 9 ㄕˋ\na 1 ㄘㄜˋ", 3, RowCause::Phrase),
        ("測\n策 200 ㄘㄜˋ\n", 1, RowCause::Frequency),
        ("策 200 ㄘㄜˋ\n是 9 ㄕˋ\n測 abc ㄘㄜˋ\n", 3, RowCause::Frequency),
        ("測 100 x\n策 200 ㄘㄜˋ\n", 1, RowCause::Syllable),
        ("策 200 ㄘㄜˋ\n是 9 ㄕˋ\n測 100 ㄘㄜˋˋ", 3, RowCause::Syllable),
        ("測 100\n策 200 ㄘㄜˋ\n", 1, RowCause::Lengths),
        ("策 200 ㄘㄜˋ\n是 9 ㄕˋ\n測試 9318 ㄘㄜˋ\n", 3, RowCause::Lengths),
        ("測 1 ㄘㄜˋ\n測 1 ㄘㄜˋ\n策 200 ㄘㄜˋ\n", 2, RowCause::Twice),
        ("測 1 ㄘㄜˋ\n策 200 ㄘㄜˋ\n\n#\n測 2 ㄘㄜˋ", 5, RowCause::Twice),
    ];
    fails(&rt, rt.alloc(), &texts)?;
    Ok(())
}

#[test]
fn the_first_cause_of_the_first_faulty_line_is_told(rt: HostRuntime) -> Result<(), Fail> {
    let texts = [
        ("a b c", 1, RowCause::Phrase),
        ("測 b c", 1, RowCause::Frequency),
        ("測 1 ㄘㄜˋ c", 1, RowCause::Syllable),
        ("測 1 ㄘㄜˋ\n測 x ㄘㄜˋ\n", 2, RowCause::Frequency),
        ("測 1 ㄘㄜˋ\n測 2 ㄘㄜˋ ㄘㄜˋ\n", 2, RowCause::Lengths),
        ("測 1 ㄘㄜˋ\n測 2 ㄘㄜˋ\na", 2, RowCause::Twice),
        ("測 1\na", 1, RowCause::Lengths),
    ];
    fails(&rt, rt.alloc(), &texts)?;
    Ok(())
}

#[test]
fn what_is_no_phrase_no_frequency_and_no_syllable(rt: HostRuntime) -> Result<(), Fail> {
    let texts = [
        ("測\u{3000}試 1 ㄘㄜˋ ㄕˋ", 1, RowCause::Phrase),
        ("測試測試測試測試測試測試 1 ㄘㄜˋ", 1, RowCause::Phrase),
        ("測a 1 ㄘㄜˋ ㄘㄜˋ", 1, RowCause::Phrase),
        ("\r\r\n", 1, RowCause::Phrase),
        ("測 100000000 ㄘㄜˋ", 1, RowCause::Frequency),
        ("測 99999999999999999999 ㄘㄜˋ", 1, RowCause::Frequency),
        ("測 +1 ㄘㄜˋ", 1, RowCause::Frequency),
        ("測 -1 ㄘㄜˋ", 1, RowCause::Frequency),
        ("測 1. ㄘㄜˋ", 1, RowCause::Frequency),
        ("測 #1 ㄘㄜˋ", 1, RowCause::Frequency),
        ("測 1 ㄜㄘˋ", 1, RowCause::Syllable),
        ("測 1 ˋ", 1, RowCause::Syllable),
        ("測 1 ㄘㄜˋ\r\r\n", 1, RowCause::Syllable),
    ];
    fails(&rt, rt.alloc(), &texts)?;
    Ok(())
}

#[test]
fn there_are_as_many_syllables_as_characters(rt: HostRuntime) -> Result<(), Fail> {
    let texts = [
        ("測 1 ㄘㄜˋ ㄘㄜˋ", 1, RowCause::Lengths),
        ("\u{FEFF}測 1 ㄘㄜˋ", 1, RowCause::Lengths),
        ("測 1 ㄅ ㄅ ㄅ ㄅ ㄅ ㄅ ㄅ ㄅ ㄅ ㄅ ㄅ ㄅ", 1, RowCause::Lengths),
        ("測 1 ㄅ ㄅ ㄅ ㄅ ㄅ ㄅ ㄅ ㄅ ㄅ ㄅ ㄅ ㄅ ㄅ x", 1, RowCause::Syllable),
    ];
    fails(&rt, rt.alloc(), &texts)?;
    Ok(())
}

/// A tab, a carriage return, an empty line, a leading zero, two syllables, a comment, and no last line feed.
const SMALL: &str = "是\t9 ㄕˋ\r\n\n測試 08 ㄘㄜˋ ㄕˋ #a";

/// The row of its first line.
const FIRST: &str = "是 9 ㄕˋ\n";

/// Both rows.
const BOTH: &str = "是 9 ㄕˋ\n測試 8 ㄘㄜˋ ㄕˋ\n";

/// The fronts of the small text from this length on have these outcomes, each so many; the length behind them.
fn fronts_give(
    rt: &impl Abort,
    alloc: Global,
    first: usize,
    outcomes: &[(usize, Outcome)],
) -> Result<usize, NoMemory> {
    let text = SMALL.as_bytes();
    let mut cut = first;
    for (cuts, want) in outcomes {
        for _ in 0..*cuts {
            assert!(rt; cut <= text.len());
            gives(rt, alloc, &text[..cut], want)?;
            cut += 1;
        }
    }
    Ok(cut)
}

#[test]
fn a_text_that_is_cut_in_its_first_line(rt: HostRuntime) -> Result<(), Fail> {
    let outcomes = [
        (1, Ok("")), // nothing
        (2, Err((1, RowCause::Phrase))), // two bytes of 是
        (2, Err((1, RowCause::Frequency))), // 是, and the tab
        (2, Err((1, RowCause::Lengths))), // the 9, and the space
        (2, Err((1, RowCause::Syllable))), // two bytes of ㄕ
        (1, Ok("是 9 ㄕ\n")), // ㄕ
        (1, Err((1, RowCause::Syllable))), // a byte of the tone
        (4, Ok(FIRST)), // the tone, the carriage return and two line feeds
    ];
    assert_eq!(rt; fronts_give(&rt, rt.alloc(), 0, &outcomes)?, 15);
    Ok(())
}

#[test]
fn a_text_that_is_cut_in_its_last_line(rt: HostRuntime) -> Result<(), Fail> {
    let outcomes = [
        (2, Err((3, RowCause::Phrase))), // two bytes of 測
        (1, Err((3, RowCause::Frequency))), // 測
        (2, Err((3, RowCause::Phrase))), // two bytes of 試
        (2, Err((3, RowCause::Frequency))), // 試, and the space
        (3, Err((3, RowCause::Lengths))), // the 0, the 8 and the space
        (2, Err((3, RowCause::Syllable))), // two bytes of ㄘ
        (1, Err((3, RowCause::Lengths))), // ㄘ
        (2, Err((3, RowCause::Syllable))), // two bytes of ㄜ
        (1, Err((3, RowCause::Lengths))), // ㄜ
        (1, Err((3, RowCause::Syllable))), // a byte of the tone
        (2, Err((3, RowCause::Lengths))), // the tone, and the space
        (2, Err((3, RowCause::Syllable))), // two bytes of ㄕ
        (1, Ok("是 9 ㄕˋ\n測試 8 ㄘㄜˋ ㄕ\n")), // ㄕ
        (1, Err((3, RowCause::Syllable))), // a byte of the tone
        (4, Ok(BOTH)), // the tone, the space and the comment
    ];
    assert_eq!(rt;
        fronts_give(&rt, rt.alloc(), 15, &outcomes)?,
        SMALL.len() + 1
    );
    Ok(())
}

#[test]
fn rows_have_what_their_lines_say(rt: HostRuntime) -> Result<(), Fail> {
    let rows = read_rows(rt.alloc(), "測試 9318 ㄘㄜˋ ㄕˋ\n是 0 ㄕˋ\n".as_bytes())?;
    assert_eq!(rt; rows.len(), 2);
    assert_eq!(rt; rows[0].phrase.text(), "測試");
    assert_eq!(rt; rows[0].freq, 9318);
    assert_eq!(rt; rows[0].time, 0);
    assert_eq!(rt; rows[0].key.list().len(), 2);
    assert_eq!(rt; rows[0].key.list()[0].code(), 10268);
    assert_eq!(rt; rows[0].key.list()[1].code(), 8708);
    assert_eq!(rt; rows[1].phrase.text(), "是");
    assert_eq!(rt; rows[1].freq, 0);
    Ok(())
}
