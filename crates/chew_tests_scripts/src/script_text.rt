//! Scripts by their texts: keys and rounds, and each front of a small script.

use chew_script::KeyStroke::{
    Add, Backspace, Char, Delete, Down, End, Enter, Esc, Forget, Hide, Home, Left, PageDown,
    PageUp, Right, Tab, Up,
};
use chew_script::{KeyStroke, ScriptCause, ScriptFault, read_script};
use std::alloc::Global;
use std::process::Abort;

/// What a text gives: the keys of each context and the rounds, or its first fault.
enum Outcome {
    Reads(&'static [&'static [KeyStroke]], u32),
    Fails(u32, ScriptCause),
}

/// The text is read as these contexts and rounds.
pub(crate) fn reads(
    rt: &impl Abort,
    alloc: Global,
    text: &[u8],
    contexts: &[&[KeyStroke]],
    rounds: u32,
) {
    match read_script(alloc, text) {
        Ok(script) => {
            assert_eq!(rt; script.rounds, rounds);
            assert_eq!(rt; script.contexts.lists().len(), contexts.len());
            for (keys, wanted) in script.contexts.lists().iter().zip(contexts) {
                assert!(rt; keys.as_slice() == *wanted);
            }
        }
        Err(_) => panic!(rt; "the script was refused"),
    }
}

/// The text is refused for this line and cause.
pub(crate) fn fails(rt: &impl Abort, alloc: Global, text: &[u8], line: u32, cause: ScriptCause) {
    match read_script(alloc, text) {
        Ok(_) => panic!(rt; "the script was read"),
        Err(fault) => assert!(rt; fault == ScriptFault::Bad { line, cause }),
    }
}

/// Two contexts, a comment, a round, a line that ends by CR and LF, and no line feed at the end.
const SMALL: &[u8] = b"1:h<lt>\r\n# c\nround\n2:<C2><F9>";

/// The keys of the first line.
const FIRST: &[KeyStroke] = &[Char(b'h'), Char(b'<')];

/// What each front of the small script gives, from the empty text on.
const FRONTS: [Outcome; 30] = [
    Outcome::Reads(&[], 0),
    Outcome::Fails(1, ScriptCause::Form),
    Outcome::Reads(&[&[]], 0),
    Outcome::Reads(&[&[Char(b'h')]], 0),
    Outcome::Fails(1, ScriptCause::Key),
    Outcome::Fails(1, ScriptCause::Key),
    Outcome::Fails(1, ScriptCause::Key),
    Outcome::Reads(&[FIRST], 0),
    Outcome::Reads(&[FIRST], 0),
    Outcome::Reads(&[FIRST], 0),
    Outcome::Reads(&[FIRST], 0),
    Outcome::Reads(&[FIRST], 0),
    Outcome::Reads(&[FIRST], 0),
    Outcome::Reads(&[FIRST], 0),
    Outcome::Fails(3, ScriptCause::Form),
    Outcome::Fails(3, ScriptCause::Form),
    Outcome::Fails(3, ScriptCause::Form),
    Outcome::Fails(3, ScriptCause::Form),
    Outcome::Reads(&[FIRST], 1),
    Outcome::Reads(&[FIRST], 1),
    Outcome::Fails(4, ScriptCause::Form),
    Outcome::Reads(&[FIRST, &[]], 1),
    Outcome::Fails(4, ScriptCause::Key),
    Outcome::Fails(4, ScriptCause::Key),
    Outcome::Fails(4, ScriptCause::Key),
    Outcome::Reads(&[FIRST, &[Add(2)]], 1),
    Outcome::Fails(4, ScriptCause::Key),
    Outcome::Fails(4, ScriptCause::Key),
    Outcome::Fails(4, ScriptCause::Key),
    Outcome::Reads(&[FIRST, &[Add(2), Forget(9)]], 1),
];

#[test]
fn each_front_of_a_small_script(rt: HostRuntime) {
    for (end, outcome) in FRONTS.iter().enumerate() {
        match (SMALL.get(..end), outcome) {
            (Some(front), Outcome::Reads(contexts, rounds)) => {
                reads(&rt, rt.alloc(), front, contexts, *rounds);
            }
            (Some(front), Outcome::Fails(line, cause)) => {
                fails(&rt, rt.alloc(), front, *line, *cause);
            }
            (None, _) => panic!(rt; "the script is shorter"),
        }
    }
}

/// Lines of four contexts, which name each key that has a name.
const NAMED: &[u8] = b"1:<E><B><D><L><R><H><Z><U><V><P><N><T><X><lt>\n\
    2: ~>\n\
    2:<C2><C3><C4><C5><C6><C7><C8><C9>\n\
    4:<F1><F2><F3><F4><F5><F6><F7><F8><F9>\n\
    3:<K2><K3><K4><K5><K6><K7><K8><K9>\n\
    1:>";

/// The keys of the first context.
const NAMED_FIRST: &[KeyStroke] = &[
    Enter,
    Backspace,
    Delete,
    Left,
    Right,
    Home,
    End,
    Up,
    Down,
    PageUp,
    PageDown,
    Tab,
    Esc,
    Char(b'<'),
    Char(b'>'),
];

/// The keys of the second context.
const NAMED_SECOND: &[KeyStroke] = &[
    Char(b' '),
    Char(b'~'),
    Char(b'>'),
    Add(2),
    Add(3),
    Add(4),
    Add(5),
    Add(6),
    Add(7),
    Add(8),
    Add(9),
];

/// The keys of the third context.
const NAMED_THIRD: &[KeyStroke] = &[
    Hide(2),
    Hide(3),
    Hide(4),
    Hide(5),
    Hide(6),
    Hide(7),
    Hide(8),
    Hide(9),
];

/// The keys of the fourth context.
const NAMED_FOURTH: &[KeyStroke] = &[
    Forget(1),
    Forget(2),
    Forget(3),
    Forget(4),
    Forget(5),
    Forget(6),
    Forget(7),
    Forget(8),
    Forget(9),
];

#[test]
fn keys_of_lines(rt: HostRuntime) {
    let contexts = [NAMED_FIRST, NAMED_SECOND, NAMED_THIRD, NAMED_FOURTH];
    reads(&rt, rt.alloc(), NAMED, &contexts, 0);
}
