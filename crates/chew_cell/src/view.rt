//! What a seat of the table knows. It exists in the proofs alone: no value of these types is made.

use chew_plain::{Entry, Plain};
use std::collections::LinkedList;
use std::marker::Model;

/// A list of entries that was seen, and the numbers that have seen it.
pub(crate) struct Sight {
    seen: LinkedList<Entry>,
    numbers: LinkedList<u32>,
}

impl Model for Sight {
    ghost use Rattle.std.specs.Prelude.{map};
    ghost use Rattle.chew_plain.specs.Call.{entry_of};
    ghost use Rattle.chew_cell.specs.View.{Sight as Seen};

    ghost Value = { Seen };

    ghost view = { λ s. record { seen = map entry_of s.seen; numbers = s.numbers } };
}

/// What the cell began with and how many seats it has; what was seen; a ticket, and whether it is called; older sights that
/// this one took in; and whether the seat was given up.
pub(crate) struct View {
    start: Plain,
    seats: u32,
    sight: Sight,
    ticket: Option<u64>,
    called: bool,
    olds: LinkedList<Sight>,
    spent: bool,
}

impl Model for View {
    ghost use Rattle.chew_cell.specs.View.{View as Known};

    ghost Value = { Known };

    ghost view = { λ v. record {
      about = (v.start.dictionary, v.seats);
      sight = v.sight;
      ticket = v.ticket;
      called = v.called;
      olds = v.olds;
      spent = v.spent;
    } };
}
