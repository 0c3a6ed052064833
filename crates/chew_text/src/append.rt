ghost use Rattle.std.specs.Prelude.{◌≡◌, ◌+◌, ◌≤◌, ◌<◌, [], ◌∷◌, ◌++◌, IfOk, OnErr, decimal, flat_map, length, vec_len, vec_capacity};
ghost use Rattle.chew_text.specs.Fronts.{IsFront};

use chew_syllable::NoMemory;
use itoa::Buffer;

/// Appends fields, each with the byte that stands behind it, whole or not at all. It is refused, as `NoMemory`, only where
/// the text has no room for them.
pub fn append_fields(text: &mut Vec<u8>, fields: &[(&[u8], u8)]) -> Result<(), NoMemory>
    ensures ok { IfOk result (λ _. text.new.items ≡ text.old.items ++ flat_map (λ field. field.0.now ++ field.1 ∷ []) fields.now) }
    ensures err { OnErr result (text.new.items ≡ text.old.items) }
    ensures room { OnErr result (vec_capacity text.old < vec_len text.old + length (flat_map (λ field. field.0.now ++ field.1 ∷ []) fields.now)) }
{
    let had = text.len();
    for field in fields {
        match push_field(text, field.0, field.1) {
            Ok(()) => {}
            Err(NoMemory) => {
                text.truncate(had);
                return Err(NoMemory);
            }
        }
    }
    Ok(())
}

/// Appends a field and the byte behind it, or a front of it.
fn push_field(text: &mut Vec<u8>, field: &[u8], end: u8) -> Result<(), NoMemory>
    ensures ok { IfOk result (λ _. text.new.items ≡ text.old.items ++ (field.now ++ end ∷ [])) }
    ensures err { OnErr result (IsFront text.old.items text.new.items) }
    ensures room { OnErr result (vec_capacity text.old < vec_len text.old + (length field.now + 1)) }
    ensures grown { vec_capacity text.old ≤ vec_capacity text.new }
{
    text.extend_from_slice(field)?;
    text.push(end)?;
    Ok(())
}

/// Appends a number in decimal digits and the byte that stands behind it, whole or not at all.
pub fn append_number(text: &mut Vec<u8>, number: u64, end: u8) -> Result<(), NoMemory>
    ensures ok { IfOk result (λ _. text.new.items ≡ text.old.items ++ (decimal number ++ end ∷ [])) }
    ensures err { OnErr result (text.new.items ≡ text.old.items) }
{
    append_fields(text, &[(Buffer::new().format(number).as_bytes(), end)])
}

/// Appends a number in decimal digits, whole or not at all.
pub fn append_decimal(text: &mut Vec<u8>, number: u64) -> Result<(), NoMemory>
    ensures ok { IfOk result (λ _. text.new.items ≡ text.old.items ++ decimal number) }
    ensures err { OnErr result (text.new.items ≡ text.old.items) }
{
    text.extend_from_slice(Buffer::new().format(number).as_bytes())?;
    Ok(())
}
