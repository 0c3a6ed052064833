//! Calls of users by a fixed rule.

ghost use Rattle.std.specs.Prelude.{◌≡◌, ◌≤◌, IfSome, IsTrue, false, length};
ghost use Rattle.chew_spec_dictionary.specs.Call.{is_proper};
ghost use Rattle.chew_spec_dictionary.specs.History.{is_keepers};
ghost use Rattle.chew_plain.specs.Call.{call_of};

use chew_layer_samples::{forget, hide, learn, look};
use chew_plain::Call;
use chew_samples::{CE, SHI, syllable};
use chew_syllable::Syllable;

/// The pairs that a dictionary holds at most.
pub(crate) const CAP: u32 = 24;

/// A number below 65,536 after another. It takes each value once before it comes back.
pub(crate) fn next(number: u32) -> u32 {
    number.wrapping_mul(25_173).wrapping_add(13_849) % 65_536
}

/// A text of so many characters, 1 to 3.
fn text_of(count: usize, number: u32) -> &'static str {
    match (count, number % 4) {
        (1, 0) => "測",
        (1, 1) => "試",
        (1, _) => "是",
        (2, 0) => "測試",
        (2, 1) => "策是",
        (2, 2) => "試試",
        (2, _) => "是策",
        (_, 0) => "測試策",
        (_, _) => "是策測",
    }
}

/// A system's frequency of a pair.
fn orig_of(number: u32) -> u32
    ensures { result ≤ 9318 }
{
    match number % 4 {
        0 => 0,
        1 => 40,
        2 => 300,
        _ => 9318,
    }
}

/// To learn the pair of a key that a number stands for.
fn learn_by(key: &[Syllable], number: u32) -> Option<Call>
    ensures proper { IfSome result (λ call. IsTrue (is_proper (call_of call))) }
    ensures user { IfSome result (λ call. is_keepers (call_of call) ≡ false) }
{
    let orig = orig_of(number / 512);
    let text = text_of(key.len(), number / 128);
    learn(key, text, orig, orig + number % 1000)
}

/// Where a number's key begins in ten syllables, and how many it has.
fn place_of(number: u32) -> (usize, usize)
    ensures start { result.0 ≤ 7 }
    ensures len { result.1 ≤ 3 }
{
    ((number / 4 % 8) as usize, 1 + (number / 32 % 3) as usize)
}

/// The call that a number stands for: most learn, and one in eight looks.
pub(crate) fn call_of_number(run: &[Syllable], number: u32) -> Option<Call>
    requires { length run.now ≡ 10 }
    ensures proper { IfSome result (λ call. IsTrue (is_proper (call_of call))) }
    ensures user { IfSome result (λ call. is_keepers (call_of call) ≡ false) }
{
    let (start, len) = place_of(number);
    let key = &run[start..start + len];
    match number / 4096 {
        0..=8 => learn_by(key, number),
        9..=11 if len > 1 => hide(key, text_of(len, number / 128)),
        12..=13 => look(run),
        _ => forget(key, text_of(len, number / 128)),
    }
}

/// Ten syllables, each of three after each.
pub(crate) fn ten_syllables() -> [Syllable; 10] {
    let ce = syllable(CE);
    let shi = syllable(SHI);
    let other = Syllable::default();
    [ce, ce, shi, ce, other, shi, shi, other, other, ce]
}
