ghost use Rattle.std.specs.Prelude.{◌≡◌, ◌+◌, ◌<◌, ◌≤◌, [], ◌∷◌, length, map, All, Contains, IfOk, IfSome};
ghost use Rattle.chew_spec_cell.specs.Pass.{fresh_pass, new_passes};
ghost use Rattle.chew_spec_cell.specs.Sight.{HasSeen, IsTurn, longer};
ghost use Rattle.chew_cell.specs.View.{idle, nothing_seen};
ghost use Rattle.chew_cell.specs.Seats.{IsGathered, IsIdle};

use crate::chronicle::Chronicle;
use crate::pass::Pass;
use crate::turn::{Held, Turn};
use crate::turnstile::Turnstile;
use crate::view::View;
use atomic_table::Seat;
use chew_syllable::NoMemory;
use std::alloc::Global;
use std::marker::Model;
use std::sync::Wait;

/// A value that threads share. They enter it one after another, in the order in which they drew their tickets, and each turn
/// adds at most one entry to its history. Only `new` takes memory, and only `enter` waits.
#[derive(Drop)]
pub struct Cell<S: Chronicle> {
    turnstile: Turnstile<S>,
}

impl<S: Chronicle> Model for Cell<S> {
    ghost use Rattle.chew_spec_cell.specs.Pass as spec;

    ghost Value = { spec.Cell };

    ghost view = { λ c. record {
      table = c.turnstile.table.shared.table_id;
      start = S.start c.turnstile.table.shared.key.0.value;
      seats = c.turnstile.table.shared.key.1;
    } };
}

impl<S: Chronicle> Cell<S> {
    /// A cell with this value, which has no entry yet, and its passes, in the order of their numbers, from 0 on. After
    /// `NoMemory` the value is gone.
    pub fn new(alloc: Global, value: S, seats: u32) -> Result<(Cell<S>, Vec<Pass>), NoMemory>
        requires seats { 1 ≤ seats }
        requires empty { S.entries value ≡ [] }
        ensures start { IfOk result (λ made. made.0.start ≡ S.start value) }
        ensures seats { IfOk result (λ made. made.0.seats ≡ seats) }
        ensures passes { IfOk result (λ made. made.1.items ≡ new_passes made.0 seats) }
    {
        let (turnstile, first) = Turnstile::open(alloc, value, seats)?;
        let cell = Cell { turnstile };
        let passes = cell.passes(alloc, first, seats)?;
        Ok((cell, passes))
    }

    /// All passes, by the first seat.
    fn passes(
        &self,
        alloc: Global,
        mut first: Seat<Option<S>, View>,
        seats: u32,
    ) -> Result<Vec<Pass>, NoMemory>
        requires cell { first.table_id ≡ self.now.table }
        requires seats { seats ≡ self.now.seats }
        requires idle { first.me ≡ (idle (self.now.start, self.now.seats) nothing_seen, []) }
        ensures { IfOk result (λ passes. passes.items ≡ new_passes self.now seats) }
    {
        let mut passes = Vec::with_capacity(alloc, seats as usize)?;
        'numbering: for who in 0..seats {
            match self.pass(&mut first, who) {
                Some(pass) => passes.push_reserved(pass),
                None => return Err(NoMemory),
            }
        }
        Ok(passes)
    }

    /// The pass of this number, by the first seat. None where it is not the next number, which a new cell never shows.
    fn pass(&self, first: &mut Seat<Option<S>, View>, who: u32) -> Option<Pass>
        requires cell { first.old.table_id ≡ self.now.table }
        requires seats { who < self.now.seats }
        requires idle { first.old.me ≡ (idle (self.now.start, self.now.seats) nothing_seen, []) }
        ensures same { (first.new.table_id ≡ first.old.table_id) × (first.new.me ≡ first.old.me) }
        ensures pass { IfSome result (λ p. p ≡ fresh_pass self.now who) }
    {
        let badge = self.turnstile.seat(first, who)?;
        Some(Pass { badge, who })
    }

    /// Waits for a turn. The value has the cell's start; its entries begin with all that the pass had seen, and none after
    /// these is of its number. The thread sleeps while it waits. The end of each turn wakes all that wait, of which one is
    /// next and the others sleep again.
    pub fn enter<R: Wait>(&self, rt: &R, pass: Pass) -> Turn<S>
        requires { pass.cell ≡ self.now }
        ensures cell { result.pass.cell ≡ self.now }
        ensures who { result.pass.who ≡ pass.who }
        ensures start { S.start result.value ≡ self.now.start }
        ensures entries { S.entries result.value ≡ result.pass.seen }
        ensures seen { HasSeen pass.who pass.seen (S.entries result.value) }
    {
        let Pass { badge, who } = pass;
        let mut seat = badge.into_seat::<Option<S>>();
        let value = self.turnstile.enter(rt, &mut seat);
        let len = value.entries().len();
        Turn {
            value,
            pass: Held { seat, who, len },
        }
    }

    /// Gives the turn back, with the entries as they were or one more of the number of the pass. The pass has then seen
    /// them all.
    pub fn leave(&self, turn: Turn<S>) -> Pass
        requires cell { turn.pass.cell ≡ self.now }
        requires start { S.start turn.value ≡ self.now.start }
        requires entries { IsTurn turn.pass.who turn.pass.seen (S.entries turn.value) }
        ensures { result ≡ record { cell = self.now; who = turn.pass.who; seen = S.entries turn.value } }
    {
        let Turn { value, pass } = turn;
        let Held { mut seat, who, len } = pass;
        let grown = value.entries().len() > len;
        self.turnstile.leave(&mut seat, value, grown);
        Pass {
            badge: seat.into_badge(),
            who,
        }
    }

    /// Lets two holders see what either has seen: the longer of the two lists, which the other begins, and after which
    /// neither had made an entry.
    pub fn meet(&self, first: Pass, second: Pass) -> (Pass, Pass)
        requires { (first.cell ≡ self.now) × (second.cell ≡ self.now) }
        ensures first { result.0 ≡ record first { seen = longer first.seen second.seen } }
        ensures second { result.1 ≡ record second { seen = longer first.seen second.seen } }
        ensures seen_by_first { HasSeen first.who first.seen result.0.seen }
        ensures seen_by_second { HasSeen second.who second.seen result.1.seen }
    {
        let mut one = first.badge.into_seat::<Option<S>>();
        let mut other = second.badge.into_seat::<Option<S>>();
        let theirs = self.turnstile.note(&mut other);
        self.turnstile.join(&mut one, theirs);
        let ours = self.turnstile.note(&mut one);
        self.turnstile.join(&mut other, ours);
        (
            Pass {
                badge: one.into_badge(),
                who: first.who,
            },
            Pass {
                badge: other.into_badge(),
                who: second.who,
            },
        )
    }

    /// Takes all these passes in.
    fn gather(&self, seat: &mut Seat<Option<S>, View>, mut passes: Vec<Pass>)
        requires cell { seat.old.table_id ≡ self.now.table }
        requires passes { All (λ p. p.cell ≡ self.now) passes.items }
        requires idle { IsIdle seat.old.me }
        ensures cell { seat.new.table_id ≡ seat.old.table_id }
        ensures idle { IsIdle seat.new.me }
        ensures gathered { IsGathered seat.old.me.0.sight passes.items seat.new.me.0.sight }
    {
        'gathering: while let Some(pass) = passes.pop() {
            let Pass { badge, who: _ } = pass;
            self.turnstile.join(seat, badge.into_seat());
        }
    }

    /// The value at the end, for all passes of the cell together. What each had seen begins its entries, no entry after that
    /// is of its number, and each entry is of the number of one of them.
    pub fn close(self, first: Pass, others: Vec<Pass>) -> S
        requires cell { (first.cell ≡ self) × All (λ p. p.cell ≡ self) others.items }
        requires all { length others.items + 1 ≡ self.seats }
        ensures start { S.start result ≡ self.start }
        ensures seen { All (λ p. HasSeen p.who p.seen (S.entries result)) (first ∷ others.items) }
        ensures known { All (λ e. Contains (map (λ p. p.who) (first ∷ others.items)) e.who) (S.entries result) }
    {
        let mut seat = first.badge.into_seat::<Option<S>>();
        self.gather(&mut seat, others);
        self.turnstile.finish(seat)
    }
}
