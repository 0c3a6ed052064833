ghost use Rattle.std.specs.Prelude.{◌≡◌, ◌++◌, ◌∷◌, [], ◌<◌, find, is_some, length, option_copied, true};
ghost use Rattle.std.specs.Bool.{OnTrue};
ghost use Rattle.std.specs.Option.{option_map_or};
ghost use Rattle.chew_spec_layout.specs.Table.{has_key};
ghost use Rattle.chew_spec_layout.specs.Letters.{fits, letter_columns, takings};
ghost use Rattle.chew_layout_26.specs.Kinds.{kind_of};

use crate::columns::Letters;
use arrayvec::ArrayVec;
use chew_syllable::has_key;
use std::marker::Model;

/// Which of the held letters is taken for which part.
#[derive(Clone, Copy, Default)]
pub(crate) struct Taken {
    pub(crate) initial: Option<u8>,
    pub(crate) medial: Option<u8>,
    pub(crate) final_: Option<u8>,
}

impl Model for Taken {
    ghost use Rattle.chew_spec_layout.specs.Letters.{Taken as TakenLetters};

    ghost Value = { TakenLetters };

    ghost view = { λ t. record { initial = t.initial; medial = t.medial; final = t.final_ } };

    ghost inverse = { λ t. record { initial = t.initial; medial = t.medial; final_ = t.final } };
}

/// Taken for an initial, a medial and a final, each where there is one.
fn taking(initial: Option<u8>, medial: Option<u8>, final_: Option<u8>) -> Taken
    ensures { result ≡ record { initial = initial; medial = medial; final = final_ } }
{
    Taken {
        initial,
        medial,
        final_,
    }
}

/// What one, two or three letters may be taken for, in the order in which it is tried.
pub(crate) fn takings(held: &[u8]) -> ArrayVec<Taken, 3>
    ensures { result.items ≡ takings held.now }
{
    let mut takings = ArrayVec::new();
    match held {
        [a] => {
            takings.push(taking(Some(*a), None, None));
            takings.push(taking(None, Some(*a), None));
            takings.push(taking(None, None, Some(*a)));
        }
        [a, b] => {
            takings.push(taking(Some(*a), Some(*b), None));
            takings.push(taking(Some(*a), None, Some(*b)));
            takings.push(taking(None, Some(*a), Some(*b)));
        }
        [a, b, c] => takings.push(taking(Some(*a), Some(*b), Some(*c))),
        _ => {}
    }
    takings
}

/// Whether no letter is taken for a part, or that letter stands in the part's column.
fn fits_in(column: &[u8], letter: Option<u8>) -> bool
    ensures { result ≡ option_map_or (has_key column.now) letter true }
{
    match letter {
        Some(letter) => has_key(column, letter),
        None => true,
    }
}

/// Whether each letter stands for a part of the kind that it is taken for.
pub(crate) fn fits(kind: Letters, taken: Taken) -> bool
    ensures { result ≡ fits (letter_columns (kind_of kind)) taken }
{
    if !fits_in(kind.columns().initials, taken.initial) {
        return false;
    }
    if !fits_in(kind.columns().medials, taken.medial) {
        return false;
    }
    fits_in(kind.columns().finals, taken.final_)
}

/// The first of these that fits.
fn first_fit(kind: Letters, takings: &[Taken]) -> Option<&Taken>
    ensures { option_copied result ≡ find (fits (letter_columns (kind_of kind))) takings.now }
{
    takings.iter().find(|taken| fits(kind, **taken))
}

/// Whether some of these fit.
fn some_fit(kind: Letters, takings: &[Taken]) -> bool
    ensures { result ≡ is_some (find (fits (letter_columns (kind_of kind))) takings.now) }
{
    first_fit(kind, takings).is_some()
}

/// Whether the held letters fit with one more.
pub(crate) fn fits_with(kind: Letters, held: &[u8], key: u8) -> bool
    ensures value { result ≡ is_some (find (fits (letter_columns (kind_of kind))) (takings (held.now ++ key ∷ []))) }
    ensures room { OnTrue result (length held.now < 3) }
{
    match held {
        [] => some_fit(kind, takings(&[key]).as_slice()),
        [a] => some_fit(kind, takings(&[*a, key]).as_slice()),
        [a, b] => some_fit(kind, takings(&[*a, *b, key]).as_slice()),
        _ => false,
    }
}
