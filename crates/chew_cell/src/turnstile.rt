//! The table of the cell, and what its seats do there.

ghost use Rattle.std.specs.Prelude.{◌≡◌, ◌+◌, ◌<◌, ◌≤◌, ◌^◌, [], ◌∷◌, length, Some, None, IfOk, IfSome};
ghost use Rattle.chew_cell.specs.View.{both, idle, nothing_seen, sight_of};
ghost use Rattle.chew_cell.specs.Rule.{IsSightOf};
ghost use Rattle.chew_cell.specs.Seats.{IsIdle};

use crate::chronicle::Chronicle;
use crate::rule::{Learn, Note, Number, Ticketed};
use crate::view::View;
use atomic_table::{Badge, Seat, Table};
use chew_syllable::NoMemory;
use std::alloc::Global;
use std::snapshot::Snapshot;

/// The words of the table: how many entries there are, the next ticket, the ticket that is served, and how many passes were
/// made. Its one slot holds the value while nobody has it.
pub(crate) const COUNT: usize = 0;

pub(crate) const TICKET: usize = 1;

pub(crate) const SERVING: usize = 2;

pub(crate) const MADE: usize = 3;

pub(crate) const VALUE: usize = 0;

#[derive(Drop)]
pub(crate) struct Turnstile<S: Chronicle> {
    pub(crate) table: Table<Option<S>, View, (Snapshot<S>, u32), Ticketed, Global>,
    ghost sizes: { (table.shared.table_id.words ≡ 4) × (table.shared.table_id.slots ≡ 1) },
}

impl<S: Chronicle> Turnstile<S> {
    /// A new table, and its first seat, which has no number.
    pub(crate) fn open(
        alloc: Global,
        value: S,
        seats: u32,
    ) -> Result<(Turnstile<S>, Seat<Option<S>, View>), NoMemory>
        requires { S.entries value ≡ [] }
        ensures seat { IfOk result (λ c. c.1.table_id ≡ c.0.table.shared.table_id) }
        ensures about { IfOk result (λ c. (S.start c.0.table.shared.key.0.value ≡ S.start value) × (c.0.table.shared.key.1 ≡ seats)) }
        ensures idle { IfOk result (λ c. c.1.me ≡ (idle (S.start value, seats) nothing_seen, [])) }
    {
        let about = (Snapshot::of(&value), seats);
        let mut slots = Vec::new(alloc);
        slots.push(Some(value))?;
        match Table::new(alloc, &[0, 0, 0, 0], slots, &about) {
            Ok((table, seat)) => Ok((Turnstile { table }, seat)),
            Err(_) => Err(NoMemory),
        }
    }

    /// A seat of this number that has seen as much as the first. None where it is not the next number.
    pub(crate) fn seat(&self, first: &mut Seat<Option<S>, View>, who: u32) -> Option<Badge<View>>
        requires cell { (first.old.table_id ≡ self.now.table.shared.table_id) × (who < self.now.table.shared.key.1) }
        requires idle { first.old.me ≡ (idle first.old.me.0.about nothing_seen, []) }
        ensures same { (first.new.table_id ≡ first.old.table_id) × (first.new.me ≡ first.old.me) }
        ensures cell { IfSome result (λ b. b.table_id ≡ self.now.table.shared.table_id) }
        ensures view { IfSome result (λ b. b.views ≡ idle first.old.me.0.about (sight_of [] (who ∷ [])) ∷ []) }
    {
        let mut seat = self.table.shared.split_seat::<Note>(first);
        let number = who as u64;
        let found = self
            .table
            .shared
            .compare_exchange::<Number>(&mut seat, MADE, number, number + 1);
        if found == number {
            Some(seat.into_badge())
        } else {
            None
        }
    }

    /// A seat without a number that has seen as much.
    pub(crate) fn note(&self, seat: &mut Seat<Option<S>, View>) -> Seat<Option<S>, View>
        requires cell { seat.old.table_id ≡ self.now.table.shared.table_id }
        requires idle { IsIdle seat.old.me }
        ensures cell { (seat.new.table_id ≡ seat.old.table_id) × (result.table_id ≡ seat.old.table_id) }
        ensures same { seat.new.me ≡ seat.old.me }
        ensures note { result.me ≡ (idle seat.old.me.0.about (sight_of seat.old.me.0.sight.seen []), []) }
    {
        self.table.shared.split_seat::<Note>(seat)
    }

    /// Takes another seat in: the longer of what the two have seen, and the numbers of both.
    pub(crate) fn join(&self, seat: &mut Seat<Option<S>, View>, other: Seat<Option<S>, View>)
        requires cell { (seat.old.table_id ≡ self.now.table.shared.table_id) × (other.table_id ≡ self.now.table.shared.table_id) }
        requires idle { IsIdle seat.old.me × IsIdle other.me }
        ensures cell { seat.new.table_id ≡ seat.old.table_id }
        ensures both { seat.new.me ≡ (idle seat.old.me.0.about (both seat.old.me.0.sight other.me.0.sight), []) }
        ensures mine { IsSightOf (both seat.old.me.0.sight other.me.0.sight).seen seat.old.me.0.sight }
        ensures theirs { IsSightOf (both seat.old.me.0.sight other.me.0.sight).seen other.me.0.sight }
    {
        self.table.shared.join_seat::<Note>(seat, other);
        self.table.shared.load::<Learn>(seat, COUNT);
    }
}
