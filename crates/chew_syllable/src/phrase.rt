ghost use Rattle.std.specs.Prelude.{◌≡◌, ℕ, suc, ◌+◌, ◌-◌, ◌<◌, ◌≤◌, IfSome, IfNone, IsTrue, IsFalse, OnOk, OnErr, IfOk, IfErr, chars, length};
ghost use Rattle.chew_spec_syllable.specs.Phrase.{is_allowed, is_phrase, phrase_end};
ghost use Rattle.chew_syllable.specs.Front.{IsValidFront, allowed_bytes};

use crate::arrays::{string_of, utf8_of};
use crate::key::KEY_LIMIT;
use arrayvec::ArrayString;
use std::marker::Model;

/// The most characters of a phrase, one for each syllable of its key.
pub const CHARACTER_LIMIT: usize = KEY_LIMIT;

/// The most bytes of a phrase, 4 for each character.
pub const PHRASE_LIMIT: usize = 44;

/// The least character that may stand in a phrase.
const FIRST_ALLOWED: char = '\u{A1}';

/// 1 to 11 characters, each from U+00A1 on and no white space.
#[derive(Debug, Drop)]
pub struct Phrase {
    text: ArrayString<PHRASE_LIMIT>,
}

impl Model for Phrase {
    ghost use Rattle.std.specs.Prelude.{List, ℕ, IsTrue};
    ghost use Rattle.chew_spec_syllable.specs.Phrase.{is_phrase};

    ghost Value = { List ℕ };

    ghost view = { λ phrase. phrase.text.bytes };

    ghost invariant = { λ phrase. IsTrue (is_phrase phrase.text.bytes) };
}

/// The place in a text of the first character that isn't UTF-8, isn't allowed or is the twelfth; 0 in an empty text.
#[derive(Clone, Copy, Debug, PartialEq, Eq)]
pub struct BadPhrase {
    /// An offset in bytes.
    pub place: usize,
}

/// Whether a character may stand in a phrase: from U+00A1 on, and no white space.
pub fn is_allowed(character: char) -> bool
    ensures { result ≡ is_allowed character }
{
    if character < FIRST_ALLOWED {
        return false;
    }
    !character.is_whitespace()
}

/// The longest front of a text that is UTF-8.
fn valid_front(text: &[u8]) -> &str
    ensures { IsValidFront text.now result.now }
{
    match str::from_utf8(text) {
        Ok(whole) => whole,
        Err(fault) => utf8_of(&text[..fault.valid_up_to()]),
    }
}

/// What follows the allowed character that a text begins with; `None` where it begins with none.
fn after_allowed(text: &str) -> Option<&str>
    ensures some { IfSome result
        (λ rest. (n : ℕ) → allowed_bytes (suc n) (chars text.now) ≡ (length text.now - length rest.now) + allowed_bytes n (chars rest.now)) }
    ensures none { IfNone result ((n : ℕ) → allowed_bytes n (chars text.now) ≡ 0) }
    ensures shorter { IfSome result (λ rest. length rest.now < length text.now) }
{
    let mut characters = text.chars();
    let first = characters.next()?;
    if is_allowed(first) {
        Some(characters.as_str())
    } else {
        None
    }
}

/// How many bytes the allowed characters take that a text begins with, up to `limit` of them.
fn allowed_bytes(text: &str, limit: usize) -> usize
    ensures value { result ≡ allowed_bytes limit (chars text.now) }
    ensures within { result ≤ length text.now }
{
    if limit == 0 {
        return 0;
    }
    match after_allowed(text) {
        Some(rest) => text.len() - rest.len() + allowed_bytes(rest, limit - 1),
        None => 0,
    }
}

impl Phrase {
    /// The phrase that this text is.
    pub fn read(text: &[u8]) -> Result<Phrase, BadPhrase>
        ensures ok { IfOk result (λ phrase. phrase ≡ text.now) }
        ensures valid { OnOk result (IsTrue (is_phrase text.now)) }
        ensures err { OnErr result (IsFalse (is_phrase text.now)) }
        ensures place { IfErr result (λ bad. bad.place ≡ phrase_end text.now) }
    {
        let front = valid_front(text);
        let place = allowed_bytes(front, CHARACTER_LIMIT);
        if place == 0 || place < text.len() {
            return Err(BadPhrase { place });
        }
        Ok(Phrase::of(front))
    }

    /// The phrase of a text that is one. It takes no memory.
    pub fn of(text: &str) -> Phrase
        requires { IsTrue (is_phrase text.now) }
        ensures { result ≡ text.now }
    {
        Phrase {
            text: string_of(text),
        }
    }

    /// The text of the phrase.
    pub fn text(&self) -> &str
        ensures value { result.now ≡ self.now }
        ensures valid { IsTrue (is_phrase result.now) }
    {
        self.text.as_str()
    }

    /// How many characters it has, 1 to 11.
    pub fn characters(&self) -> usize
        ensures value { result ≡ length (chars self.now) }
        ensures some { 1 ≤ result }
        ensures few { result ≤ 11 }
    {
        self.text.as_str().chars().count()
    }

    /// The same phrase once more. It takes no memory.
    pub fn copy(&self) -> Phrase
        ensures { result ≡ self.now }
    {
        Phrase::of(self.text.as_str())
    }
}
