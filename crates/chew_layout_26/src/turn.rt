ghost use Rattle.std.specs.Prelude.{◌≡◌, ◌||◌, ◌≤◌, [], length, option_map};
ghost use Rattle.chew_spec_syllable.specs.Syllable.{Parts, code_of};
ghost use Rattle.chew_spec_layout.specs.Letters.{fed_first, fed_letters, fed_next, is_letter, letter_columns, reading_of, whole_reading, with_letter};
ghost use Rattle.chew_syllable.specs.Step.{step_of};
ghost use Rattle.chew_layout_26.specs.Kinds.{kind_of};

use crate::columns::Letters;
use crate::letter_reading::reading_of;
use crate::taken::fits_with;
use arrayvec::ArrayVec;
use chew_syllable::{BACKSPACE, Parts, SPACE, Step, Syllable, has_key, number_of};

/// Whether a key is one of the layout's letters.
fn is_letter(kind: Letters, key: u8) -> bool
    ensures { result ≡ is_letter (letter_columns (kind_of kind)) key }
{
    if has_key(kind.columns().initials, key) {
        return true;
    }
    if has_key(kind.columns().medials, key) {
        return true;
    }
    has_key(kind.columns().finals, key)
}

/// Takes one letter more, where the letters fit then.
fn with_letter(kind: Letters, held: &mut ArrayVec<u8, 3>, key: u8) -> Step
    ensures step { step_of result ≡ (with_letter (letter_columns (kind_of kind)) held.old.items key).step }
    ensures held { held.new.items ≡ (with_letter (letter_columns (kind_of kind)) held.old.items key).held }
{
    if !fits_with(kind, held.as_slice(), key) {
        return Step::Refused;
    }
    held.push(key);
    Step::Kept
}

/// The syllable that the held letters are read as, with this tone.
#[tactic(auto, using(chew_spec_layout::proofs::Lettered::read_syllable))]
fn syllable_of(kind: Letters, held: &[u8], tone: u8) -> Option<Syllable>
    requires { tone ≤ 4 }
    ensures { result ≡ option_map (λ (parts : Parts). code_of (record parts { tone = tone })) (reading_of (letter_columns (kind_of kind)) held.now) }
{
    let parts = reading_of(kind, held)?;
    Syllable::of(Parts { tone, ..parts })
}

/// Ends the syllable of the held letters with this tone, where they are read as one.
fn whole_reading(kind: Letters, held: &mut ArrayVec<u8, 3>, tone: u8) -> Step
    requires { tone ≤ 4 }
    ensures step { step_of result ≡ (whole_reading (letter_columns (kind_of kind)) held.old.items tone).step }
    ensures held { held.new.items ≡ (whole_reading (letter_columns (kind_of kind)) held.old.items tone).held }
{
    match syllable_of(kind, held.as_slice(), tone) {
        Some(syllable) => {
            held.clear();
            Step::Whole(syllable)
        }
        None => Step::Refused,
    }
}

/// What a key does where nothing is held: a tone's key is a letter then.
fn fed_first(kind: Letters, held: &mut ArrayVec<u8, 3>, key: u8) -> Step
    requires { held.old.items ≡ [] }
    ensures step { step_of result ≡ (fed_first (letter_columns (kind_of kind)) key).step }
    ensures held { held.new.items ≡ (fed_first (letter_columns (kind_of kind)) key).held }
{
    if is_letter(kind, key) {
        with_letter(kind, held, key)
    } else {
        Step::NotMine
    }
}

/// What a key does where something is held.
fn fed_next(kind: Letters, held: &mut ArrayVec<u8, 3>, key: u8) -> Step
    ensures step { step_of result ≡ (fed_next (letter_columns (kind_of kind)) held.old.items key).step }
    ensures held { held.new.items ≡ (fed_next (letter_columns (kind_of kind)) held.old.items key).held }
{
    if has_key(kind.columns().tones, key) {
        return whole_reading(kind, held, number_of(kind.columns().tones, key));
    }
    if key == SPACE {
        return whole_reading(kind, held, 0);
    }
    if key == BACKSPACE {
        held.pop();
        return Step::Erased;
    }
    if is_letter(kind, key) {
        return with_letter(kind, held, key);
    }
    Step::NotMine
}

/// What a key does to the letters that are held.
#[tactic(auto, unfolding(chew_spec_layout::specs::Letters::fed_letters))]
pub(crate) fn fed(kind: Letters, held: &mut ArrayVec<u8, 3>, key: u8) -> Step
    ensures step { step_of result ≡ (fed_letters (letter_columns (kind_of kind)) held.old.items key).step }
    ensures held { held.new.items ≡ (fed_letters (letter_columns (kind_of kind)) held.old.items key).held }
{
    if held.is_empty() {
        fed_first(kind, held, key)
    } else {
        fed_next(kind, held, key)
    }
}
