ghost use Rattle.std.specs.Prelude.{◌≡◌, ℕ, ◌+◌, ◌-◌, ◌^◌, ◌<◌, Bool, Option, Some, None, if◌then◌else◌, ◌==◌};
ghost use Rattle.chew_spec_slots.specs.Keep.{advanced, is_shut, with_shut};

use std::marker::Model;

/// What is known of the two slots between two checkpoints. It stands for the slots of one disk, which nobody else writes.
#[derive(Drop)]
pub struct Keep {
    acknowledged: Option<u8>,
    seq: u64,
    target: u8,
    zero_shut: bool,
    one_shut: bool,
}

impl Model for Keep {
    ghost use Rattle.std.specs.Prelude.{◌<◌};
    ghost use Rattle.chew_spec_slots.specs.Keep.{Keep as KeepState};

    ghost Value = { KeepState };

    ghost view = { λ a. record {
      acknowledged = a.acknowledged;
      seq = a.seq;
      target = a.target;
      zero_shut = a.zero_shut;
      one_shut = a.one_shut;
    } };

    ghost invariant = { λ a. a.target < 2 };
}

impl Keep {
    /// Where this slot counts, with its number, and each gate is surely shut or not.
    pub(crate) fn of_slot(slot: u8, seq: u64, zero_shut: bool, one_shut: bool) -> Keep
        requires { slot < 2 }
        ensures { result ≡ record { acknowledged = Some slot; seq = seq; target = 1 - slot; zero_shut = zero_shut; one_shut = one_shut } }
    {
        Keep {
            acknowledged: Some(slot),
            seq,
            target: 1 - slot,
            zero_shut,
            one_shut,
        }
    }

    /// Where no slot counts.
    pub(crate) fn of_none(zero_shut: bool, one_shut: bool) -> Keep
        ensures { result ≡ record { acknowledged = None; seq = 0; target = 0; zero_shut = zero_shut; one_shut = one_shut } }
    {
        Keep {
            acknowledged: None,
            seq: 0,
            target: 0,
            zero_shut,
            one_shut,
        }
    }

    /// The number of the acknowledged checkpoint, 0 where there is none.
    pub fn seq(&self) -> u64
        ensures { result ≡ self.now.seq }
    {
        self.seq
    }

    /// The number of the acknowledged checkpoint where it is the last one, 2^64-1, so that no other can be written.
    pub fn spent(&self) -> Option<u64>
        ensures { result ≡ (if self.now.seq == 2 ^ 64 - 1 then Some self.now.seq else None) }
    {
        if self.seq == u64::MAX {
            Some(self.seq)
        } else {
            None
        }
    }

    /// The slot that the next checkpoint is written to.
    pub(crate) fn target(&self) -> u8
        ensures slot { result ≡ self.now.target }
        ensures one_of_two { self.now.target < 2 }
    {
        self.target
    }

    /// Whether the target's gate is surely shut.
    pub(crate) fn is_shut(&self) -> bool
        ensures { result ≡ is_shut self.now self.now.target }
    {
        if self.target == 0 {
            self.zero_shut
        } else {
            self.one_shut
        }
    }

    /// The target's gate is surely shut, or it isn't.
    pub(crate) fn set_shut(&mut self, shut: bool)
        ensures { self.new ≡ with_shut self.old self.old.target shut }
    {
        if self.target == 0 {
            self.zero_shut = shut;
        } else {
            self.one_shut = shut;
        }
    }

    /// The target is acknowledged with the next number, and the other slot is the target.
    pub(crate) fn advance(&mut self)
        requires { self.old.seq + 1 < 2 ^ 64 }
        ensures { self.new ≡ advanced self.old }
    {
        self.set_shut(false);
        self.acknowledged = Some(self.target);
        self.seq += 1;
        self.target = 1 - self.target;
    }
}
