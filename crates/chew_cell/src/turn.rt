use crate::chronicle::Chronicle;
use crate::view::View;
use atomic_table::Seat;
use std::marker::Model;

/// The value, for one turn. Whoever has it is alone with the value until the turn is given back. A turn that is dropped
/// blocks the cell for good.
#[derive(Drop)]
pub struct Turn<S: Chronicle> {
    /// The value. It may get one more entry, of the number of the pass that entered.
    pub value: S,
    pub(crate) pass: Held<S>,
}

/// The pass that entered. Contracts see it as the pass, with the entries as they were then.
#[derive(Drop)]
pub struct Held<S: Chronicle> {
    pub(crate) seat: Seat<Option<S>, View>,
    pub(crate) who: u32,
    pub(crate) len: usize,
}

impl<S: Chronicle> Model for Held<S> {
    ghost use Rattle.chew_spec_cell.specs.Pass.{Pass};

    ghost Value = { Pass };

    ghost use Rattle.chew_cell.specs.Seats.{IsHeld, pass_of};

    ghost view = { λ h. pass_of h.seat.table_id h.seat.me.0 h.who };

    ghost invariant = { λ h. IsHeld h.seat.me h.who h.len };
}
