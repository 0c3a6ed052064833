ghost use Rattle.std.specs.Prelude.{◌≡◌, ◌∷◌, [], IfNone, IfSome, chars};

/// The first character of a text, and what follows it; `None` where the text is empty.
pub fn split_character(text: &str) -> Option<(char, &str)>
    ensures some { IfSome result (λ split. chars text.now ≡ split.0 ∷ chars split.1.now) }
    ensures none { IfNone result (chars text.now ≡ []) }
{
    let mut characters = text.chars();
    let first = characters.next()?;
    Some((first, characters.as_str()))
}
