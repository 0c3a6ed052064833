//! The rule of the cell's table, its steps and what each tells.

use crate::chronicle::Chronicle;
use crate::view::View;
use atomic_table::{Join, Play, Split, TableRule};
use std::snapshot::Snapshot;

/// What holds between any two steps. The table's key is the value with which it was made, and the number of its seats.
pub(crate) struct Ticketed;

impl<S: Chronicle> TableRule<Option<S>, View, (Snapshot<S>, u32)> for Ticketed {
    ghost use Rattle.chew_cell.specs.View.{idle, nothing_seen};
    ghost use Rattle.chew_cell.specs.Rule.{Kept};

    ghost holds = { λ key. Kept S.entries S.start (S.start key.0.value, key.1) };

    ghost first = { λ key. idle (S.start key.0.value, key.1) nothing_seen };
}

/// A seat takes the number that is next, where it is the one that it wants.
pub(crate) struct Number;

impl<S: Chronicle> Play<Option<S>, View> for Number {
    ghost use Rattle.chew_cell.specs.Steps.{Numbered};

    ghost then = { Numbered };
}

/// A seat draws a ticket.
pub(crate) struct Draw;

impl<S: Chronicle> Play<Option<S>, View> for Draw {
    ghost use Rattle.chew_cell.specs.Steps.{Drew};

    ghost then = { Drew };
}

/// A seat looks whether it is called.
pub(crate) struct Look;

impl<S: Chronicle> Play<Option<S>, View> for Look {
    ghost use Rattle.chew_cell.specs.Steps.{Looked};

    ghost then = { Looked S.entries S.start };
}

/// The called seat adds an entry.
pub(crate) struct Add;

impl<S: Chronicle> Play<Option<S>, View> for Add {
    ghost use Rattle.chew_cell.specs.Steps.{Added};

    ghost then = { Added S.entries };
}

/// The called seat gives the value back and calls the next.
pub(crate) struct CallNext;

impl<S: Chronicle> Play<Option<S>, View> for CallNext {
    ghost use Rattle.chew_cell.specs.Steps.{CalledNext};

    ghost then = { CalledNext };
}

/// A seat that took another in learns how what they have seen stands to each other.
pub(crate) struct Learn;

impl<S: Chronicle> Play<Option<S>, View> for Learn {
    ghost use Rattle.chew_cell.specs.Steps.{Learned};

    ghost then = { Learned };
}

/// A seat is split off that knows as much, and has no number; and a seat takes another in.
pub(crate) struct Note;

impl Split<View> for Note {
    ghost use Rattle.chew_cell.specs.View.{note_of};

    ghost left = { λ v. v };

    ghost right = { note_of };
}

impl Join<View> for Note {
    ghost use Rattle.chew_cell.specs.View.{joined, spent_view};

    ghost both = { joined };

    ghost spent = { spent_view };
}
