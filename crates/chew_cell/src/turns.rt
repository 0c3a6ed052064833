//! A seat's turn: it draws a ticket, waits until that is served, has the value, and gives it back.

ghost use Rattle.std.specs.Prelude.{◌≡◌, ◌≢◌, ◌+◌, ◌<◌, ◌≤◌, ◌%◌, ◌^◌, ℕ, [], ◌∷◌, length, false, Some, None, All, Contains};
ghost use Rattle.chew_cell.specs.View.{idle, in_turn, sight_of, ticket_of, waiting};
ghost use Rattle.chew_cell.specs.Rule.{IsSightOf};
ghost use Rattle.chew_cell.specs.Steps.{IsCalled, carried_entries, carried_value};
ghost use Rattle.chew_cell.specs.Seats.{IsEntered, IsIdle, IsInTurn, IsTurned, IsWaiting};

use crate::chronicle::Chronicle;
use crate::rule::{Add, CallNext, Draw, Look};
use crate::turnstile::{COUNT, SERVING, TICKET, Turnstile, VALUE};
use crate::view::View;
use atomic_table::Seat;
use std::sync::Wait;

impl<S: Chronicle> Turnstile<S> {
    /// Draws a ticket, for a seat with a number. The answer is the ticket as it stands in a word.
    fn draw(&self, seat: &mut Seat<Option<S>, View>) -> u64
        requires cell { seat.old.table_id ≡ self.now.table.shared.table_id }
        requires idle { IsIdle seat.old.me }
        requires numbered { 1 ≤ length seat.old.me.0.sight.numbers }
        ensures cell { seat.new.table_id ≡ seat.old.table_id }
        ensures same { (seat.new.me.0.about ≡ seat.old.me.0.about) × (seat.new.me.0.sight ≡ seat.old.me.0.sight) }
        ensures waits { IsWaiting seat.new.me result }
    {
        self.table.shared.fetch_add::<Draw>(seat, TICKET, 1)
    }

    /// Waits until the ticket is served. The thread sleeps meanwhile, and each turn that ends wakes it.
    fn wait_for_call<R: Wait>(&self, rt: &R, seat: &mut Seat<Option<S>, View>, ticket: u64)
        requires cell { seat.old.table_id ≡ self.now.table.shared.table_id }
        requires waits { IsWaiting seat.old.me ticket }
        ensures cell { seat.new.table_id ≡ seat.old.table_id }
        ensures called { IsCalled S.entries S.start seat.old.me seat.new.me }
    {
        for _ in rt.forever() {
            let serving = self.table.shared.load::<Look>(seat, SERVING);
            if serving == ticket {
                return;
            }
            self.table
                .shared
                .park(rt, SERVING, (serving % (1 << 32)) as u32);
        }
        unreachable!()
    }

    /// Takes the value out of the table, for a seat that is called.
    fn take(&self, seat: &mut Seat<Option<S>, View>) -> S
        requires cell { seat.old.table_id ≡ self.now.table.shared.table_id }
        requires carries { (value : S) × (seat.old.me.1 ≡ (0, Some value) ∷ []) }
        ensures cell { seat.new.table_id ≡ seat.old.table_id }
        ensures value { seat.old.me.1 ≡ (0, Some result) ∷ [] }
        ensures taken { seat.new.me ≡ (seat.old.me.0, (0, None) ∷ []) }
    {
        match self.table.shared.exchange(seat, VALUE, None) {
            Some(value) => value,
            None => unreachable!(),
        }
    }

    /// Waits for a turn, for a seat with a number, and has the value then.
    pub(crate) fn enter<R: Wait>(&self, rt: &R, seat: &mut Seat<Option<S>, View>) -> S
        requires cell { seat.old.table_id ≡ self.now.table.shared.table_id }
        requires idle { IsIdle seat.old.me }
        requires numbered { 1 ≤ length seat.old.me.0.sight.numbers }
        ensures cell { seat.new.table_id ≡ seat.old.table_id }
        ensures entered { IsEntered S.entries S.start seat.old.me seat.new.me result }
    {
        let ticket = self.draw(seat);
        self.wait_for_call(rt, seat, ticket);
        self.take(seat)
    }

    /// Counts the entry that the carried value has more than the seat has seen, where it has grown.
    fn record(&self, seat: &mut Seat<Option<S>, View>, grown: bool)
        requires cell { seat.old.table_id ≡ self.now.table.shared.table_id }
        requires turn { IsInTurn seat.old.me (carried_value seat.old.me.1) }
        requires carries { (value : S) × (carried_value seat.old.me.1 ≡ Some value) }
        requires entries { IsTurned seat.old.me.0.sight grown (carried_entries S.entries seat.old.me.1) }
        requires short { length (carried_entries S.entries seat.old.me.1) < 2 ^ 64 }
        ensures cell { seat.new.table_id ≡ seat.old.table_id }
        ensures seen { seat.new.me
            ≡ (
              in_turn seat.old.me.0.about (sight_of (carried_entries S.entries seat.old.me.1) seat.old.me.0.sight.numbers)
                  (ticket_of seat.old.me.0),
              seat.old.me.1,
            ) }
    {
        if grown {
            self.table.shared.fetch_add::<Add>(seat, COUNT, 1);
        }
    }

    /// Wakes those who wait, where anybody drew a ticket after the one that was served.
    fn wake(&self, served: u64) {
        if self.table.shared.peek(TICKET) != served.wrapping_add(1) {
            self.table.shared.wake_all(SERVING);
        }
    }

    /// Gives the value back at the end of a turn, and calls the next. `grown` says whether it has an entry more.
    pub(crate) fn leave(&self, seat: &mut Seat<Option<S>, View>, value: S, grown: bool)
        requires cell { seat.old.table_id ≡ self.now.table.shared.table_id }
        requires turn { IsInTurn seat.old.me None }
        requires start { S.start value ≡ seat.old.me.0.about.0 }
        requires entries { IsTurned seat.old.me.0.sight grown (S.entries value) }
        requires short { length (S.entries value) < 2 ^ 64 }
        ensures cell { seat.new.table_id ≡ seat.old.table_id }
        ensures idle { seat.new.me ≡ (idle seat.old.me.0.about (sight_of (S.entries value) seat.old.me.0.sight.numbers), []) }
    {
        self.table.shared.exchange(seat, VALUE, Some(value));
        self.record(seat, grown);
        let served = self.table.shared.fetch_add::<CallNext>(seat, SERVING, 1);
        self.wake(served);
    }

    /// The value at the end, for a seat that has all numbers.
    pub(crate) fn finish(self, seat: Seat<Option<S>, View>) -> S
        requires cell { seat.table_id ≡ self.table.shared.table_id }
        requires all { length seat.me.0.sight.numbers ≡ self.table.shared.key.1 }
        requires idle { seat.me.0.called ≡ false }
        ensures start { S.start result ≡ S.start self.table.shared.key.0.value }
        ensures seen { IsSightOf (S.entries result) seat.me.0.sight }
        ensures numbers { All (λ e. Contains seat.me.0.sight.numbers e.who) (S.entries result) }
    {
        let Turnstile { table } = self;
        let mut closed = table.close_with(seat);
        let value = closed.take(VALUE);
        closed.free();
        match value {
            Some(value) => value,
            None => unreachable!(),
        }
    }
}
