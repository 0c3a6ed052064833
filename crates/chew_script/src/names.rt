ghost use Rattle.std.specs.Prelude.{◌≡◌, ◌≤◌, map, IfSome};
ghost use Rattle.std.specs.Option.{option_map};
ghost use Rattle.chew_spec_text.specs.KeyStroke.{key_named};
ghost use Rattle.chew_spec_text.specs.Script.{context_in};
ghost use Rattle.chew_script.specs.Keys.{key_of};
ghost use Rattle.chew_script.specs.Table.{beside};

use crate::keystroke::KeyStroke;
use crate::limits::CONTEXTS_LIMIT;

/// The names of keys, which a script writes between `<` and `>`.
const KEY_NAMES: [(&[u8], KeyStroke); 39] = [
    (b"E", KeyStroke::Enter),
    (b"B", KeyStroke::Backspace),
    (b"D", KeyStroke::Delete),
    (b"L", KeyStroke::Left),
    (b"R", KeyStroke::Right),
    (b"H", KeyStroke::Home),
    (b"Z", KeyStroke::End),
    (b"U", KeyStroke::Up),
    (b"V", KeyStroke::Down),
    (b"P", KeyStroke::PageUp),
    (b"N", KeyStroke::PageDown),
    (b"T", KeyStroke::Tab),
    (b"X", KeyStroke::Esc),
    (b"lt", KeyStroke::Char(b'<')),
    (b"C2", KeyStroke::Add(2)),
    (b"C3", KeyStroke::Add(3)),
    (b"C4", KeyStroke::Add(4)),
    (b"C5", KeyStroke::Add(5)),
    (b"C6", KeyStroke::Add(6)),
    (b"C7", KeyStroke::Add(7)),
    (b"C8", KeyStroke::Add(8)),
    (b"C9", KeyStroke::Add(9)),
    (b"F1", KeyStroke::Forget(1)),
    (b"F2", KeyStroke::Forget(2)),
    (b"F3", KeyStroke::Forget(3)),
    (b"F4", KeyStroke::Forget(4)),
    (b"F5", KeyStroke::Forget(5)),
    (b"F6", KeyStroke::Forget(6)),
    (b"F7", KeyStroke::Forget(7)),
    (b"F8", KeyStroke::Forget(8)),
    (b"F9", KeyStroke::Forget(9)),
    (b"K2", KeyStroke::Hide(2)),
    (b"K3", KeyStroke::Hide(3)),
    (b"K4", KeyStroke::Hide(4)),
    (b"K5", KeyStroke::Hide(5)),
    (b"K6", KeyStroke::Hide(6)),
    (b"K7", KeyStroke::Hide(7)),
    (b"K8", KeyStroke::Hide(8)),
    (b"K9", KeyStroke::Hide(9)),
];

/// The numbers of contexts, as a script writes them.
const NUMBERS: [(&[u8], u8); CONTEXTS_LIMIT] = [
    (b"1", 1),
    (b"2", 2),
    (b"3", 3),
    (b"4", 4),
    (b"5", 5),
    (b"6", 6),
    (b"7", 7),
    (b"8", 8),
    (b"9", 9),
    (b"10", 10),
    (b"11", 11),
    (b"12", 12),
    (b"13", 13),
    (b"14", 14),
    (b"15", 15),
    (b"16", 16),
];

/// The key of a name.
pub(crate) fn key_named(name: &[u8]) -> Option<KeyStroke>
    ensures { option_map key_of result ≡ key_named name.now }
{
    looked_up(&KEY_NAMES, name)
}

/// The number of a context that digits write: 1 to 16, without a leading zero.
pub(crate) fn context_number(digits: &[u8]) -> Option<u8>
    ensures value { result ≡ context_in digits.now }
    ensures range { IfSome result (λ number. (1 ≤ number) × (number ≤ 16)) }
{
    looked_up(&NUMBERS, digits)
}

/// What stands beside a name in a table.
fn looked_up<T: Copy>(mut table: &[(&[u8], T)], name: &[u8]) -> Option<T>
    ensures { result ≡ beside name.now (map (λ entry. (entry.0.now, entry.1)) table.entry.now) }
{
    'looking: while let [entry, rest @ ..] = table {
        if entry.0 == name {
            return Some(entry.1);
        }
        table = rest;
    }
    None
}
