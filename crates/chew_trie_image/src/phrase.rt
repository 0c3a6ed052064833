ghost use Rattle.std.specs.Prelude.{◌≡◌, ◌∷◌, [], ◌&&◌, ◌==◌, IfNone, IfSome, chars, length};
ghost use Rattle.std.specs.List.{list_all};
ghost use Rattle.chew_spec_syllable.specs.Phrase.{is_allowed, is_phrase};

use chew_syllable::{CHARACTER_LIMIT, is_allowed, split_character};

/// Whether bytes are a phrase of so many characters. No copy of the phrase is made.
pub(crate) fn is_phrase_of(bytes: &[u8], len: u32) -> bool
    ensures { result ≡ (is_phrase bytes.now && (length (chars bytes.now) == len)) }
{
    if len == 0 {
        return false;
    }
    if len > CHARACTER_LIMIT as u32 {
        return false;
    }
    match str::from_utf8(bytes) {
        Ok(text) => has_allowed(text, len),
        Err(_) => false,
    }
}

/// Whether a text has so many characters, and all of them may stand in a phrase.
fn has_allowed(text: &str, count: u32) -> bool
    ensures { result ≡ (list_all is_allowed (chars text.now) && (length (chars text.now) == count)) }
{
    match split_character(text) {
        Some((first, rest)) => {
            if count == 0 {
                return false;
            }
            if !is_allowed(first) {
                return false;
            }
            has_allowed(rest, count - 1)
        }
        None => count == 0,
    }
}
