ghost use Rattle.std.specs.Prelude.{◌≡◌, ◌≤◌, length};

use crate::splice::CELL_LIMIT;
use arrayvec::ArrayVec;
use chew_phrasing::Choice;
use chew_syllable::array_of;

/// The same breaks once more.
pub(crate) fn breaks_copied(breaks: &[u8]) -> ArrayVec<u8, CELL_LIMIT>
    requires { length breaks.now ≤ 39 }
    ensures { result.items ≡ breaks.now }
{
    array_of(breaks)
}

/// The same choices once more.
pub(crate) fn choices_copied(choices: &[Choice]) -> ArrayVec<Choice, CELL_LIMIT>
    requires { length choices.now ≤ 39 }
    ensures { result.items ≡ choices.now }
{
    let mut copied = ArrayVec::new();
    for choice in choices {
        copied.push(choice.copy());
    }
    copied
}
