//! Keys on a layout that held nothing, and what they do.

use chew_layouts::{Kind, Layout};
use chew_syllable::{Step, Syllable, print_bopomofo};
use std::process::Abort;

/// Keys from nothing held, the step of each, and the code and the marks of the last whole syllable; 0 and no marks where
/// there is none.
pub(crate) type Typed = (&'static [u8], &'static [u8], u16, &'static str);

/// A step by a letter: kept, whole, refused, erased, or `n` for a key that isn't the layout's.
fn letter_of(step: &Step) -> u8 {
    match step {
        Step::Kept => b'k',
        Step::Whole(_) => b'w',
        Step::Refused => b'r',
        Step::Erased => b'e',
        Step::NotMine => b'n',
    }
}

/// The keys take these steps. The last whole syllable, where there is one.
fn last_of(rt: &impl Abort, kind: Kind, keys: &[u8], steps: &[u8]) -> Option<Syllable> {
    let mut layout = Layout::of(kind);
    let mut last = None;
    assert_eq!(rt; keys.len(), steps.len());
    for (key, want) in keys.iter().zip(steps) {
        let step = layout.feed(*key);
        assert_eq!(rt; letter_of(&step), *want);
        if let Step::Whole(syllable) = step {
            last = Some(syllable);
        }
    }
    last
}

/// The keys take these steps, and the last whole syllable has this code; 0 where there is none.
pub(crate) fn takes(rt: &impl Abort, kind: Kind, keys: &[u8], steps: &[u8], code: u16) {
    match last_of(rt, kind, keys, steps) {
        Some(syllable) => assert_eq!(rt; syllable.code(), code),
        None => assert_eq!(rt; 0, code),
    }
}

/// The keys of each row do what the row says.
pub(crate) fn types(rt: &impl Abort, kind: Kind, rows: &[Typed]) {
    for (keys, steps, code, marks) in rows {
        match last_of(rt, kind, keys, steps) {
            Some(syllable) => {
                assert_eq!(rt; syllable.code(), *code);
                assert_eq!(rt; print_bopomofo(syllable).as_str(), *marks);
            }
            None => {
                assert_eq!(rt; 0, *code);
                assert_eq!(rt; "", *marks);
            }
        }
    }
}
