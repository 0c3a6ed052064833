ghost use Rattle.std.specs.Prelude.{◌≡◌, ◌<◌, ◌==◌, ◌++◌, ◌∷◌, [], length, Some, None, IfSome, IfNone, if◌then◌else◌};
ghost use Rattle.std.specs.Option.{option_map, ok_or};
ghost use Rattle.chew_spec_text.specs.KeyStroke.{keys_in};
ghost use Rattle.chew_spec_text.specs.Script.{Key};
ghost use Rattle.chew_script.specs.Faults.{Gives};
ghost use Rattle.chew_script.specs.Keys.{key_of, keys_of};

use crate::fault::{LineFault, ScriptCause};
use crate::keystroke::KeyStroke;
use crate::names::key_named;
use chew_text::cut_at;

/// Appends the keys that a text names.
pub(crate) fn push_keys(keys: &mut Vec<KeyStroke>, text: &[u8]) -> Result<(), LineFault>
    ensures { Gives result (λ _. keys_of keys.new.items) (ok_or (option_map (λ more. keys_of keys.old.items ++ more) (keys_in text.now)) Key) }
{
    let mut rest = text;
    'reading: while let Some((key, more)) = first_key(rest) {
        match keys.push(key) {
            Ok(()) => rest = more,
            Err(_) => return Err(LineFault::NoMemory),
        }
    }
    if rest.is_empty() {
        Ok(())
    } else {
        Err(LineFault::Bad(ScriptCause::Key))
    }
}

/// The first key that a text names, and the text behind it.
fn first_key(text: &[u8]) -> Option<(KeyStroke, &[u8])>
    ensures some { IfSome result (λ first. keys_in text.now ≡ option_map (λ keys. key_of first.0 ∷ keys) (keys_in first.1.now)) }
    ensures shorter { IfSome result (λ first. length first.1.now < length text.now) }
    ensures none { IfNone result (keys_in text.now ≡ (if length text.now == 0 then Some [] else None)) }
{
    match text {
        [byte, rest @ ..] => {
            if *byte == b'<' {
                first_name(rest)
            } else {
                Some((KeyStroke::Char(*byte), rest))
            }
        }
        [] => None,
    }
}

/// The key whose name stands behind a `<` and ends at the first `>`, and the text behind it.
fn first_name(text: &[u8]) -> Option<(KeyStroke, &[u8])>
    ensures some { IfSome result (λ first. keys_in (60 ∷ text.now) ≡ option_map (λ keys. key_of first.0 ∷ keys) (keys_in first.1.now)) }
    ensures shorter { IfSome result (λ first. length first.1.now < length text.now) }
    ensures none { IfNone result (keys_in (60 ∷ text.now) ≡ None) }
{
    let (name, rest) = cut_at(text, b'>')?;
    let key = key_named(name)?;
    Some((key, rest))
}
