ghost use Rattle.std.specs.Prelude.{◌≡◌, [], ◌∷◌, IfSome, IfNone, length, take, drop, chars, bytes_eq};

use chew_syllable::split_character;

/// What follows so many characters of a text, or nothing where it has fewer.
pub(crate) fn after_characters(text: &str, count: usize) -> &str
    ensures { chars result.now ≡ drop count (chars text.now) }
{
    if count == 0 {
        return text;
    }
    match split_character(text) {
        Some((_, rest)) => after_characters(rest, count - 1),
        None => text,
    }
}

/// Whether a text begins with the characters of another.
pub(crate) fn begins_with(text: &str, front: &str) -> bool
    ensures { result ≡ bytes_eq (take (length (chars front.now)) (chars text.now)) (chars front.now) }
{
    match split_character(front) {
        Some((wanted, front_rest)) => match split_character(text) {
            Some((first, rest)) => first == wanted && begins_with(rest, front_rest),
            None => false,
        },
        None => true,
    }
}
