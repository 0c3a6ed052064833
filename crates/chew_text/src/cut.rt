ghost use Rattle.std.specs.Prelude.{◌≡◌, ◌==◌, ◌++◌, ◌∷◌, false, position, All, IfSome, IfNone};

/// The text before the first such byte, and the text behind it; `None` where there is no such byte.
pub fn cut_at(text: &[u8], byte: u8) -> Option<(&[u8], &[u8])>
    ensures whole { IfSome result (λ parts. text.now ≡ parts.0.now ++ byte ∷ parts.1.now) }
    ensures first { IfSome result (λ parts. All (λ other. (other == byte) ≡ false) parts.0.now) }
    ensures none { IfNone result (All (λ other. (other == byte) ≡ false) text.now) }
{
    let place = first_place(text, byte)?;
    Some((&text[..place], &text[place + 1..]))
}

/// Where the first such byte is.
fn first_place(text: &[u8], byte: u8) -> Option<usize>
    ensures { result ≡ position (λ other. other == byte) text.now }
{
    text.iter().position(|other| *other == byte)
}
