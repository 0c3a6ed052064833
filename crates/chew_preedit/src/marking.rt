ghost use Rattle.std.specs.Prelude.{◌≡◌, ◌+◌, ◌≤◌, ◌∷◌, ◌++◌, All, IsTrue, length};
ghost use Rattle.chew_spec_phrasing.specs.CanSegment.{interval_of};
ghost use Rattle.chew_spec_phrasing.specs.Usable.{choice_end, is_unbroken};
ghost use Rattle.chew_spec_preedit.specs.Buffer.{is_choosable};
ghost use Rattle.chew_spec_preedit.specs.Edit.{break_toggled, breaks_before, breaks_behind, broken, can_break, choices_before, choices_behind, chosen, has_inside, mended};

use crate::cell_item::are_sounds;
use crate::preedit::Preedit;
use crate::splice::{CELL_LIMIT, Splice, choice_end};
use arrayvec::ArrayVec;
use chew_phrasing::Choice;

impl Preedit {
    /// Sets a break at the cursor, which no choice has strictly inside then, or clears the one that is there.
    #[tactic(auto, unfolding(chew_spec_preedit::specs::Edit::break_toggled))]
    pub fn toggle_break(&mut self)
        requires { IsTrue (can_break self.old) }
        ensures { self.new ≡ break_toggled self.old }
    {
        if self.breaks().contains(&self.cursor()) {
            self.mend();
        } else {
            self.part();
        }
    }

    /// Clears the break at the cursor.
    fn mend(&mut self)
        ensures { self.new ≡ mended self.old }
    {
        let cursor = self.cursor;
        self.breaks.retain(|at| *at != cursor);
    }

    /// Sets a break at the cursor.
    fn part(&mut self)
        requires { IsTrue (can_break self.old) }
        ensures { self.new ≡ broken self.old }
    {
        let cursor = self.cursor;
        let breaks = with_break(self.breaks.as_slice(), cursor);
        self.breaks = breaks;
        self.choices.retain(|choice| !has_inside(choice, cursor));
    }

    /// Whether the choice's cells are all syllables of the buffer, with no break strictly inside.
    pub fn can_choose(&self, choice: &Choice) -> bool
        ensures { result ≡ is_choosable self.now.cells self.now.breaks choice.now }
    {
        let start = usize::from(choice.start);
        let end = choice_end(choice);
        if end > self.cells.len() {
            return false;
        }
        if !are_sounds(self.cells.as_slice(), start, end) {
            return false;
        }
        is_unbroken(self.breaks.as_slice(), choice)
    }

    /// Chooses a phrase for cells of one run that no break parts. The choices that have one of these cells go.
    pub fn choose(&mut self, choice: Choice)
        requires choosable { IsTrue (is_choosable self.old.cells self.old.breaks choice) }
        requires freq { choice.freq ≤ 99_999_999 }
        ensures { self.new ≡ chosen choice self.old }
    {
        let _text = choice.phrase.text();
        let choices = with_choice(self.choices.as_slice(), choice);
        self.choices = choices;
    }
}

/// Whether no break is strictly inside the choice.
fn is_unbroken(breaks: &[u8], choice: &Choice) -> bool
    ensures { result ≡ is_unbroken breaks.now (interval_of choice.now) }
{
    breaks.iter().all(|place| !has_inside(choice, *place))
}

/// Whether the place is strictly inside the choice.
fn has_inside(choice: &Choice, place: u8) -> bool
    ensures { result ≡ has_inside place choice.now }
{
    choice.start < place && usize::from(place) < choice_end(choice)
}

/// The breaks with one at the place.
fn with_break(breaks: &[u8], place: u8) -> ArrayVec<u8, CELL_LIMIT>
    requires room { length (breaks_before place breaks.now) + (length (breaks_behind place breaks.now) + 1) ≤ 39 }
    requires within { All (λ at. at ≤ 39) breaks.now }
    requires place { place ≤ 39 }
    ensures { result.items ≡ breaks_before place breaks.now ++ (place ∷ breaks_behind place breaks.now) }
{
    let splice = Splice::at(place);
    let mut parted = ArrayVec::new();
    splice.push_breaks_before(&mut parted, breaks);
    parted.push(place);
    splice.push_breaks_behind(&mut parted, breaks);
    parted
}

/// The choices that have none of the choice's cells, and the choice among them.
fn with_choice(choices: &[Choice], choice: Choice) -> ArrayVec<Choice, CELL_LIMIT>
    requires room { length (choices_before choice.start choices.now) + (length (choices_behind (choice_end choice) choices.now) + 1) ≤ 39 }
    requires within { All (λ other. other.start ≤ 39) choices.now }
    requires end { choice_end choice ≤ 39 }
    ensures { result.items ≡ choices_before choice.start choices.now ++ (choice ∷ choices_behind (choice_end choice) choices.now) }
{
    let end = choice_end(&choice) as u8;
    let mut chosen = ArrayVec::new();
    Splice::at(choice.start).push_choices_before(&mut chosen, choices);
    chosen.push(choice);
    Splice::at(end).push_choices_behind(&mut chosen, choices);
    chosen
}
