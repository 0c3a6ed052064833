//! The lines of entries in a trace, by their texts.

use chew_plain::{Call, Entry};
use chew_script::{append_entry, print_entry};
use chew_syllable::{Key, NoMemory, Phrase, Run, Syllable};
use std::alloc::Global;
use std::process::Abort;

/// The syllable of a code.
fn syllable(code: u16) -> Syllable {
    Syllable::from_code(code).unwrap_or_default()
}

/// The run of these syllables.
fn run_of(rt: &impl Abort, syllables: &[Syllable]) -> Run {
    match Run::of(syllables) {
        Some(run) => run,
        None => panic!(rt; "these are no run"),
    }
}

/// The key of these syllables, and a phrase under it.
fn pair(rt: &impl Abort, syllables: &[Syllable], text: &str) -> (Key, Phrase) {
    match (Key::of(syllables), Phrase::read(text.as_bytes())) {
        (Some(key), Ok(phrase)) => (key, phrase),
        _ => panic!(rt; "these are no pair"),
    }
}

/// The call has this line in a trace.
fn prints(
    rt: &impl Abort,
    alloc: Global,
    who: u32,
    call: Call,
    wanted: &str,
) -> Result<(), NoMemory> {
    entry_prints(rt, alloc, &Entry { who, call }, wanted)
}

/// The entry has this line, alone and behind another text.
fn entry_prints(
    rt: &impl Abort,
    alloc: Global,
    entry: &Entry,
    wanted: &str,
) -> Result<(), NoMemory> {
    assert!(rt; print_entry(alloc, entry)?.bytes() == wanted.as_bytes());
    let mut text = Vec::from_slice(alloc, b"0 freeze\n")?;
    append_entry(&mut text, entry)?;
    assert!(rt; text.starts_with(b"0 freeze\n"));
    assert!(rt; text.ends_with(wanted.as_bytes()));
    assert_eq!(rt; text.len(), 9 + wanted.len());
    Ok(())
}

#[test]
fn looks_in_a_trace(rt: HostRuntime) -> Result<(), NoMemory> {
    let alloc = rt.alloc();
    let syllables = [syllable(10268), syllable(8708)];
    for (count, who, wanted) in [
        (0usize, 1, "1 look \n"),
        (1, 16, "16 look 10268\n"),
        (2, 1, "1 look 10268,8708\n"),
    ] {
        let run = run_of(&rt, &syllables[..count]);
        prints(&rt, alloc, who, Call::Look(run), wanted)?;
    }
    Ok(())
}

#[test]
fn the_longest_look(rt: HostRuntime) -> Result<(), NoMemory> {
    let run = run_of(&rt, &[syllable(10268); 39]);
    let wanted = longest_look(rt.alloc())?;
    prints(&rt, rt.alloc(), u32::MAX, Call::Look(run), wanted.as_str())
}

fn longest_look(alloc: Global) -> Result<String, NoMemory> {
    let mut text = String::from_str(alloc, "4294967295 look 10268")?;
    for _ in 0..38 {
        text.push_str(",10268")?;
    }
    text.push('\n')?;
    Ok(text)
}

#[test]
fn learns_in_a_trace(rt: HostRuntime) -> Result<(), NoMemory> {
    let syllables = [syllable(10268), syllable(8708)];
    for (text, orig, peak, wanted) in [
        ("測試", 9318, 9318, "1 learn 10268,8708 測試 9318 9318\n"),
        ("策是", 0, 9318, "1 learn 10268,8708 策是 0 9318\n"),
        (
            "策試",
            99_999_998,
            99_999_999,
            "1 learn 10268,8708 策試 99999998 99999999\n",
        ),
    ] {
        let (key, phrase) = pair(&rt, &syllables, text);
        let call = Call::Learn {
            key,
            phrase,
            orig,
            peak,
        };
        prints(&rt, rt.alloc(), 1, call, wanted)?;
    }
    Ok(())
}

#[test]
fn forgets_in_a_trace(rt: HostRuntime) -> Result<(), NoMemory> {
    let (key, phrase) = pair(&rt, &[syllable(10268), syllable(8708)], "測試");
    let forget = Call::Forget { key, phrase };
    prints(&rt, rt.alloc(), 16, forget, "16 forget 10268,8708 測試\n")
}

#[test]
fn hides_in_a_trace(rt: HostRuntime) -> Result<(), NoMemory> {
    let (key, phrase) = pair(&rt, &[syllable(10268), syllable(8708)], "策是");
    let hide = Call::Hide { key, phrase };
    prints(&rt, rt.alloc(), 2, hide, "2 hide 10268,8708 策是\n")
}

#[test]
fn freezes_and_installs_in_a_trace(rt: HostRuntime) -> Result<(), NoMemory> {
    let alloc = rt.alloc();
    prints(&rt, alloc, 0, Call::Freeze, "0 freeze\n")?;
    prints(&rt, alloc, 0, Call::Install(0), "0 install 0\n")?;
    prints(&rt, alloc, 0, Call::Install(3), "0 install 3\n")?;
    prints(
        &rt,
        alloc,
        0,
        Call::Install(u64::MAX),
        "0 install 18446744073709551615\n",
    )
}

#[test]
fn the_longest_learn(rt: HostRuntime) -> Result<(), NoMemory> {
    let (key, phrase) = pair(&rt, &[syllable(8708); 11], "是是是是是是是是是是是");
    let call = Call::Learn {
        key,
        phrase,
        orig: 99_999_999,
        peak: 99_999_999,
    };
    let wanted =
        "4294967295 learn 8708,8708,8708,8708,8708,8708,8708,8708,8708,8708,8708 是是是是是是是是是是是 99999999 99999999\n";
    prints(&rt, rt.alloc(), u32::MAX, call, wanted)
}
