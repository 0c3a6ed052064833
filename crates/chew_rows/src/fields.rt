ghost use Rattle.std.specs.Prelude.{◌≡◌, ◌<◌, ◌∷◌, [], not, length, position, IfSome, IfNone};
ghost use Rattle.std.specs.List.{before_first};
ghost use Rattle.chew_spec_text.specs.DictionaryText.{fields_in, is_hash, is_separator};

/// What stands before the comment of a line.
pub(crate) fn before_comment(line: &[u8]) -> &[u8]
    ensures { result.now ≡ before_first is_hash line.now }
{
    match comment_place(line) {
        Some(place) => &line[..place],
        None => line,
    }
}

/// Where the comment of a line begins.
fn comment_place(line: &[u8]) -> Option<usize>
    ensures { result ≡ position is_hash line.now }
{
    line.iter().position(|byte| *byte == b'#')
}

/// The first field of a text and what follows it; `None` where it has no field.
pub(crate) fn first_field(text: &[u8]) -> Option<(&[u8], &[u8])>
    ensures some { IfSome result (λ parts. fields_in text.now ≡ parts.0.now ∷ fields_in parts.1.now) }
    ensures shorter { IfSome result (λ parts. length parts.1.now < length text.now) }
    ensures none { IfNone result (fields_in text.now ≡ []) }
{
    let start = field_place(text)?;
    let text = &text[start..];
    match separator_place(text) {
        Some(place) => Some((&text[..place], &text[place + 1..])),
        None => Some((text, &[])),
    }
}

/// Where the first field begins.
fn field_place(text: &[u8]) -> Option<usize>
    ensures { result ≡ position (λ byte. not (is_separator byte)) text.now }
{
    text.iter().position(|byte| !is_separator(*byte))
}

/// Where the first byte is that parts fields.
fn separator_place(text: &[u8]) -> Option<usize>
    ensures { result ≡ position is_separator text.now }
{
    text.iter().position(|byte| is_separator(*byte))
}

/// Whether a byte parts fields.
fn is_separator(byte: u8) -> bool
    ensures { result ≡ is_separator byte }
{
    byte == b' ' || byte == b'\t'
}
