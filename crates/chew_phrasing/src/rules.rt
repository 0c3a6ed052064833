ghost use Rattle.std.specs.Prelude.{◌≡◌, ◌≤◌, ◌+◌, ◌&&◌, nat_lt, true, if◌then◌else◌};
ghost use Rattle.chew_spec_phrasing.specs.Usable.{agrees, choice_end, is_unbroken, keeps_choices, lies_in, meets};

use crate::characters::{after_characters, begins_with};
use crate::piece::Choice;
use chew_plain::Interval;

/// Whether no break lies strictly inside the interval.
pub(crate) fn is_unbroken(breaks: &[u8], at: Interval) -> bool
    ensures { result ≡ is_unbroken breaks.now at }
{
    breaks
        .iter()
        .all(|place| !is_inside(usize::from(*place), at))
}

/// Whether the place lies strictly inside the interval.
fn is_inside(place: usize, at: Interval) -> bool
    ensures { result ≡ (nat_lt at.start place && nat_lt place (at.start + at.len)) }
{
    at.start < place && place < at.start + at.len
}

/// Whether each choice that meets the interval lies inside it, and the phrase has its characters at its cells.
pub(crate) fn keeps_choices(choices: &[Choice], at: Interval, phrase: &str) -> bool
    ensures { result ≡ keeps_choices choices.now at phrase.now }
{
    choices
        .iter()
        .all(|choice| keeps_choice(choice, at, phrase))
}

/// The same for one choice.
fn keeps_choice(choice: &Choice, at: Interval, phrase: &str) -> bool
    ensures { result ≡ (if meets at choice.now then lies_in at choice.now && agrees at phrase.now choice.now else true) }
{
    if !meets(choice, at) {
        return true;
    }
    lies_in(choice, at) && agrees(choice, at, phrase)
}

/// Where the choice ends.
fn choice_end(choice: &Choice) -> usize
    ensures { result ≡ choice_end choice.now }
{
    usize::from(choice.start) + choice.phrase.characters()
}

/// Whether the choice has a cell of the interval.
fn meets(choice: &Choice, at: Interval) -> bool
    ensures { result ≡ meets at choice.now }
{
    usize::from(choice.start) < at.start + at.len && at.start < choice_end(choice)
}

/// Whether all cells of the choice are of the interval.
fn lies_in(choice: &Choice, at: Interval) -> bool
    ensures { result ≡ lies_in at choice.now }
{
    at.start <= usize::from(choice.start) && choice_end(choice) <= at.start + at.len
}

/// Whether a phrase for the interval, inside which the choice lies, has the choice's characters at its cells.
fn agrees(choice: &Choice, at: Interval, phrase: &str) -> bool
    requires { at.start ≤ choice.now.start }
    ensures { result ≡ agrees at phrase.now choice.now }
{
    let there = after_characters(phrase, usize::from(choice.start) - at.start);
    begins_with(there, choice.phrase.text())
}
