ghost use Rattle.std.specs.Prelude.{◌≡◌, ◌<◌, ◌≤◌, ◌==◌, IfSome, OnSome, position, SomeIff, IsTrue, length};
ghost use Rattle.chew_spec_layout.specs.Table.{is_held, fed, columns_of, holds_something, nothing_held, has_key, number_of, whole_or, without_last, erased};
ghost use Rattle.chew_syllable.specs.Step.{step_of};
ghost use Rattle.chew_layout_table.specs.Tables.{table_of};

use crate::columns::Table;
use chew_syllable::{BACKSPACE, Parts, SPACE, Step, Syllable, number_in};

/// No part.
pub(crate) const NOTHING: Parts = Parts {
    initial: 0,
    medial: 0,
    final_: 0,
    tone: 0,
};

/// What a key did, and what is held then.
#[derive(Drop)]
pub(crate) struct Turn {
    pub(crate) step: Step,
    pub(crate) held: Parts,
}

/// Whether there is a part.
pub(crate) fn holds_something(held: Parts) -> bool
    requires { IsTrue (is_held held) }
    ensures { result ≡ holds_something held }
{
    held.initial + held.medial + held.final_ > 0
}

/// Ends the syllable with this tone; the other step where nothing is held.
fn whole_or(otherwise: Step, held: Parts, tone: u8) -> Turn
    requires held { IsTrue (is_held held) }
    requires tone { tone ≤ 4 }
    ensures step { step_of result.step ≡ (whole_or (step_of otherwise) held tone).step }
    ensures held { result.held ≡ (whole_or (step_of otherwise) held tone).held }
    ensures valid { IsTrue (is_held result.held) }
{
    match Syllable::of(Parts { tone, ..held }) {
        Some(syllable) => Turn {
            step: Step::Whole(syllable),
            held: NOTHING,
        },
        None => Turn {
            step: otherwise,
            held,
        },
    }
}

/// Without the final, else without the medial, else without the initial.
fn without_last(held: Parts) -> Parts
    requires { IsTrue (is_held held) }
    ensures value { result ≡ without_last held }
    ensures valid { IsTrue (is_held result) }
{
    if held.final_ > 0 {
        return Parts { final_: 0, ..held };
    }
    if held.medial > 0 {
        return Parts { medial: 0, ..held };
    }
    Parts { initial: 0, ..held }
}

/// What Backspace does.
fn erased(held: Parts) -> Turn
    requires { IsTrue (is_held held) }
    ensures step { step_of result.step ≡ (erased held).step }
    ensures held { result.held ≡ (erased held).held }
    ensures valid { IsTrue (is_held result.held) }
{
    if !holds_something(held) {
        return Turn {
            step: Step::NotMine,
            held,
        };
    }
    Turn {
        step: Step::Erased,
        held: without_last(held),
    }
}

/// What a key does to the parts that are held.
#[tactic(auto, unfolding(chew_spec_layout::specs::Table::fed))]
pub(crate) fn fed(table: Table, held: Parts, key: u8) -> Turn
    requires { IsTrue (is_held held) }
    ensures step { step_of result.step ≡ (fed (columns_of (table_of table)) held key).step }
    ensures held { result.held ≡ (fed (columns_of (table_of table)) held key).held }
    ensures valid { IsTrue (is_held result.held) }
{
    let columns = table.columns();
    if let Some(initial) = number_in(columns.initials, key) {
        return Turn {
            step: Step::Kept,
            held: Parts { initial, ..held },
        };
    }
    if let Some(medial) = number_in(columns.medials, key) {
        return Turn {
            step: Step::Kept,
            held: Parts { medial, ..held },
        };
    }
    if let Some(final_) = number_in(columns.finals, key) {
        return Turn {
            step: Step::Kept,
            held: Parts { final_, ..held },
        };
    }
    if let Some(tone) = number_in(columns.tones, key) {
        return whole_or(Step::Refused, held, tone);
    }
    match key {
        SPACE => whole_or(Step::NotMine, held, 0),
        BACKSPACE => erased(held),
        _ => Turn {
            step: Step::NotMine,
            held,
        },
    }
}
