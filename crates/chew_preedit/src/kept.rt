ghost use Rattle.std.specs.Prelude.{◌≡◌, ◌+◌, ◌≤◌, ◌++◌, length, map};
ghost use Rattle.chew_spec_preedit.specs.Edit.{breaks_before, breaks_behind, choices_before, choices_behind};
ghost use Rattle.chew_preedit.specs.Splice.{moved_choice, moved_place};

use crate::preedit::Preedit;
use crate::splice::{CELL_LIMIT, Splice};
use arrayvec::ArrayVec;
use chew_phrasing::Choice;

/// The breaks and choices that an edit of the cells leaves, as they stand then.
pub(crate) struct Kept {
    pub(crate) breaks: ArrayVec<u8, CELL_LIMIT>,
    pub(crate) choices: ArrayVec<Choice, CELL_LIMIT>,
}

impl Preedit {
    /// What an edit of these cells leaves of the breaks and choices.
    pub(crate) fn kept(&self, splice: Splice) -> Kept
        requires removed { splice.from + splice.removed ≤ length self.now.cells }
        requires added { splice.added ≤ 39 }
        ensures breaks { result.breaks.items ≡ breaks_before splice.from self.now.breaks
            ++ map (moved_place splice.removed splice.added) (breaks_behind (splice.from + splice.removed) self.now.breaks) }
        ensures choices { result.choices.items ≡ choices_before splice.from self.now.choices
            ++ map (moved_choice splice.removed splice.added) (choices_behind (splice.from + splice.removed) self.now.choices) }
    {
        Kept {
            breaks: splice.breaks(self.breaks.as_slice()),
            choices: splice.choices(self.choices.as_slice()),
        }
    }
}
