ghost use Rattle.std.specs.Prelude.{◌≡◌, ◌+◌, ◌<◌, ◌≤◌, ◌++◌, All, IsTrue, length, map};
ghost use Rattle.chew_spec_phrasing.specs.Usable.{choice_end};
ghost use Rattle.chew_spec_preedit.specs.Edit.{breaks_before, breaks_behind, choices_before, choices_behind};
ghost use Rattle.chew_preedit.specs.Splice.{moved_choice, moved_place};

use arrayvec::ArrayVec;
use chew_phrasing::Choice;
use chew_syllable::RUN_LIMIT;

/// The most cells of a buffer, which are looked up as one run when all are syllables.
pub(crate) const CELL_LIMIT: usize = RUN_LIMIT;

/// Some cells of a buffer that are cut out, and how many come in their stead.
#[derive(Clone, Copy)]
pub(crate) struct Splice {
    /// The place of the first that is cut out.
    pub(crate) from: u8,
    pub(crate) removed: u8,
    pub(crate) added: u8,
}

impl Splice {
    /// No cell cut out and none put in, at a place.
    pub(crate) fn at(place: u8) -> Splice
        ensures { result ≡ record { from = place; removed = 0; added = 0 } }
    {
        Splice {
            from: place,
            removed: 0,
            added: 0,
        }
    }

    /// The place behind the last cell that is cut out.
    fn to(self) -> u8
        requires { self.from + self.removed ≤ 39 }
        ensures { result ≡ self.from + self.removed }
    {
        self.from + self.removed
    }

    /// Where a place stands that was behind the cells.
    fn moved(self, place: u8) -> u8
        requires behind { self.removed ≤ place }
        requires place { place ≤ 39 }
        requires added { self.added ≤ 39 }
        ensures { result ≡ moved_place self.removed self.added place }
    {
        place - self.removed + self.added
    }

    /// The breaks that stay, as they stand then.
    pub(crate) fn breaks(self, breaks: &[u8]) -> ArrayVec<u8, CELL_LIMIT>
        requires room { length (breaks_before self.from breaks.now) + length (breaks_behind (self.from + self.removed) breaks.now) ≤ 39 }
        requires within { All (λ place. place ≤ 39) breaks.now }
        requires removed { self.from + self.removed ≤ 39 }
        requires added { self.added ≤ 39 }
        ensures { result.items ≡ breaks_before self.from breaks.now
            ++ map (moved_place self.removed self.added) (breaks_behind (self.from + self.removed) breaks.now) }
    {
        let mut kept = ArrayVec::new();
        self.push_breaks_before(&mut kept, breaks);
        self.push_breaks_behind(&mut kept, breaks);
        kept
    }

    /// The choices that stay, as they stand then.
    pub(crate) fn choices(self, choices: &[Choice]) -> ArrayVec<Choice, CELL_LIMIT>
        requires room { length (choices_before self.from choices.now) + length (choices_behind (self.from + self.removed) choices.now) ≤ 39 }
        requires within { All (λ choice. choice.start ≤ 39) choices.now }
        requires removed { self.from + self.removed ≤ 39 }
        requires added { self.added ≤ 39 }
        ensures { result.items ≡ choices_before self.from choices.now
            ++ map (moved_choice self.removed self.added) (choices_behind (self.from + self.removed) choices.now) }
    {
        let mut kept = ArrayVec::new();
        self.push_choices_before(&mut kept, choices);
        self.push_choices_behind(&mut kept, choices);
        kept
    }

    /// Adds the breaks before the cells.
    pub(crate) fn push_breaks_before(self, kept: &mut ArrayVec<u8, CELL_LIMIT>, breaks: &[u8])
        requires { length kept.old.items + length (breaks_before self.from breaks.now) ≤ 39 }
        ensures { kept.new.items ≡ kept.old.items ++ breaks_before self.from breaks.now }
    {
        for place in breaks {
            if *place < self.from {
                kept.push(*place);
            }
        }
    }

    /// Adds the breaks behind the cells, as they stand then.
    pub(crate) fn push_breaks_behind(self, kept: &mut ArrayVec<u8, CELL_LIMIT>, breaks: &[u8])
        requires room { length kept.old.items + length (breaks_behind (self.from + self.removed) breaks.now) ≤ 39 }
        requires within { All (λ place. place ≤ 39) breaks.now }
        requires removed { self.from + self.removed ≤ 39 }
        requires added { self.added ≤ 39 }
        ensures { kept.new.items ≡ kept.old.items ++ map (moved_place self.removed self.added) (breaks_behind (self.from + self.removed) breaks.now) }
    {
        let to = self.to();
        for place in breaks {
            if *place > to {
                kept.push(self.moved(*place));
            }
        }
    }

    /// Adds the choices that end before the cells.
    pub(crate) fn push_choices_before(
        self,
        kept: &mut ArrayVec<Choice, CELL_LIMIT>,
        choices: &[Choice],
    )
        requires { length kept.old.items + length (choices_before self.from choices.now) ≤ 39 }
        ensures { kept.new.items ≡ kept.old.items ++ choices_before self.from choices.now }
    {
        for choice in choices {
            if choice_end(choice) <= usize::from(self.from) {
                kept.push(choice.copy());
            }
        }
    }

    /// Adds the choices that begin behind the cells, as they stand then.
    pub(crate) fn push_choices_behind(
        self,
        kept: &mut ArrayVec<Choice, CELL_LIMIT>,
        choices: &[Choice],
    )
        requires room { length kept.old.items + length (choices_behind (self.from + self.removed) choices.now) ≤ 39 }
        requires within { All (λ choice. choice.start ≤ 39) choices.now }
        requires removed { self.from + self.removed ≤ 39 }
        requires added { self.added ≤ 39 }
        ensures { kept.new.items ≡ kept.old.items ++ map (moved_choice self.removed self.added) (choices_behind (self.from + self.removed) choices.now) }
    {
        let to = self.to();
        for choice in choices {
            if to <= choice.start {
                kept.push(self.moved_choice(choice));
            }
        }
    }

    /// The choice as it stands then.
    fn moved_choice(self, choice: &Choice) -> Choice
        requires behind { self.removed ≤ choice.now.start }
        requires place { choice.now.start ≤ 39 }
        requires added { self.added ≤ 39 }
        ensures { result ≡ moved_choice self.removed self.added choice.now }
    {
        Choice {
            start: self.moved(choice.start),
            phrase: choice.phrase.copy(),
            freq: choice.freq,
        }
    }
}

/// The place behind the choice's last cell.
pub(crate) fn choice_end(choice: &Choice) -> usize
    ensures { result ≡ choice_end choice.now }
{
    usize::from(choice.start) + choice.phrase.characters()
}
