ghost use Rattle.std.specs.Prelude.{◌≡◌, None, filter, find, if◌then◌else◌, map, not, option_copied};
ghost use Rattle.std.specs.List.{last_or};
ghost use Rattle.std.specs.Option.{option_map_or};
ghost use Rattle.chew_spec_layout.specs.Letters.{final_of, fits, initial_of, is_final_alone, is_front, is_palatal, is_reading, letter_columns, parts_taken, reading_of};
ghost use Rattle.chew_spec_layout.specs.Table.{number_of};
ghost use Rattle.chew_layout_26.specs.Kinds.{kind_of};

use crate::columns::Letters;
use crate::numbers::numbers_of;
use crate::taken::{Taken, fits, takings};
use chew_syllable::{Parts, number_of};

/// Whether the initial is ㄐ, ㄑ or ㄒ.
fn is_palatal(initial: u8) -> bool
    ensures { result ≡ is_palatal initial }
{
    12 <= initial && initial <= 14
}

/// Whether the medial is ㄧ or ㄩ.
fn is_front(medial: u8) -> bool
    ensures { result ≡ is_front medial }
{
    medial == 1 || medial == 3
}

/// Whether the initial is the one that a letter with two stands for before this medial.
fn stands_before(medial: u8, initial: u8) -> bool
    ensures { result ≡ (if is_front medial then is_palatal initial else not (is_palatal initial)) }
{
    if is_front(medial) {
        is_palatal(initial)
    } else {
        !is_palatal(initial)
    }
}

/// The first of these initials that stands before this medial.
fn first_before(medial: u8, initials: &[u8]) -> Option<&u8>
    ensures { option_copied result ≡ find (λ initial. if is_front medial then is_palatal initial else not (is_palatal initial)) initials.now }
{
    initials
        .iter()
        .find(|initial| stands_before(medial, **initial))
}

/// The initial that a letter stands for before this medial.
fn initial_of(kind: Letters, medial: u8, letter: u8) -> u8
    ensures { result ≡ initial_of (letter_columns (kind_of kind)) medial letter }
{
    let numbers = numbers_of(kind.columns().initials, letter);
    match first_before(medial, numbers.as_slice()) {
        Some(initial) => *initial,
        None => number_of(kind.columns().initials, letter),
    }
}

/// The last of these.
#[tactic(auto, using(crate::proofs::Rest::last_place))]
fn last_of(numbers: &[u8]) -> Option<&u8>
    ensures { option_copied result ≡ last_or None numbers.now }
{
    numbers.last()
}

/// The final that a letter stands for, alone or behind others.
fn final_of(kind: Letters, alone: bool, letter: u8) -> u8
    ensures { result ≡ final_of (letter_columns (kind_of kind)) alone letter }
{
    if !alone {
        return number_of(kind.columns().finals, letter);
    }
    let numbers = numbers_of(kind.columns().finals, letter);
    match last_of(numbers.as_slice()) {
        Some(last) => *last,
        None => 0,
    }
}

/// The number of the initial; 0 where no letter is taken for one.
fn initial_taken(kind: Letters, medial: u8, letter: Option<u8>) -> u8
    ensures { result ≡ option_map_or (initial_of (letter_columns (kind_of kind)) medial) letter 0 }
{
    match letter {
        Some(letter) => initial_of(kind, medial, letter),
        None => 0,
    }
}

/// The number of the medial; 0 where no letter is taken for one.
fn medial_taken(kind: Letters, letter: Option<u8>) -> u8
    ensures { result ≡ option_map_or (number_of (letter_columns (kind_of kind)).medials) letter 0 }
{
    match letter {
        Some(letter) => number_of(kind.columns().medials, letter),
        None => 0,
    }
}

/// The number of the final; 0 where no letter is taken for one.
fn final_taken(kind: Letters, alone: bool, letter: Option<u8>) -> u8
    ensures { result ≡ option_map_or (final_of (letter_columns (kind_of kind)) alone) letter 0 }
{
    match letter {
        Some(letter) => final_of(kind, alone, letter),
        None => 0,
    }
}

/// Whether a letter is taken for a final, and none for another part.
fn is_final_alone(taken: Taken) -> bool
    ensures { result ≡ is_final_alone taken }
{
    taken.initial.is_none() && taken.medial.is_none()
}

/// The parts that letters stand for, so taken.
fn parts_taken(kind: Letters, taken: Taken) -> Parts
    ensures { result ≡ parts_taken (letter_columns (kind_of kind)) taken }
{
    let medial = medial_taken(kind, taken.medial);
    Parts {
        initial: initial_taken(kind, medial, taken.initial),
        medial,
        final_: final_taken(kind, is_final_alone(taken), taken.final_),
        tone: 0,
    }
}

/// Whether the parts are no initial alone, but for ㄓ, ㄔ, ㄕ, ㄖ, ㄗ, ㄘ and ㄙ.
fn is_reading(parts: Parts) -> bool
    ensures { result ≡ is_reading parts }
{
    parts.medial > 0 || parts.final_ > 0 || parts.initial >= 15
}

/// The first of these that fits and is a reading.
fn first_reading(kind: Letters, takings: &[Taken]) -> Option<Parts>
    ensures { result ≡ find is_reading (map (parts_taken (letter_columns (kind_of kind))) (filter (fits (letter_columns (kind_of kind))) takings.now)) }
{
    takings
        .iter()
        .filter(|taken| fits(kind, **taken))
        .map(|taken| parts_taken(kind, *taken))
        .find(|parts| is_reading(*parts))
}

/// What the held letters are read as.
#[tactic(auto, unfolding(chew_spec_layout::specs::Letters::reading_of))]
pub(crate) fn reading_of(kind: Letters, held: &[u8]) -> Option<Parts>
    ensures { result ≡ reading_of (letter_columns (kind_of kind)) held.now }
{
    first_reading(kind, takings(held).as_slice())
}
