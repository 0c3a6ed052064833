ghost use Rattle.std.specs.Prelude.{◌≤◌, length};

use crate::Gate;
use std::sync::Wait;
use std::sync::atomic::{AtomicBool, AtomicU64, Ordering};
use std::thread::yield_now;

/// Holds the activity `who` at its place `at` until the activity `until_who` has come to its place `until_at`.
#[derive(Clone, Copy, Debug, PartialEq, Eq)]
pub struct Hold {
    pub who: u32,
    pub at: u32,
    pub until_who: u32,
    pub until_at: u32,
}

/// A gate that holds activities where it is told to, each for a limited time. It waits by yielding, since it is for tests.
#[derive(Drop)]
pub struct HoldGate {
    holds: Vec<Hold>,
    turns: u32,
    // The holds that have ended, each of them one bit.
    ended: AtomicU64,
    expired: AtomicBool,
}

/// Holds, each of them one bit: those that end as a place is reached, and those that hold there.
#[derive(Clone, Copy)]
struct Named {
    ending: u64,
    holding: u64,
}

impl HoldGate {
    /// Makes a gate of at most 64 holds. Whoever waits yields at most so many turns.
    pub fn of(holds: Vec<Hold>, turns: u32) -> HoldGate
        requires few { length holds.items ≤ 64 }
    {
        HoldGate {
            holds,
            turns,
            ended: AtomicU64::new(0),
            expired: AtomicBool::new(false),
        }
    }

    /// Whether somebody waited for all its turns, and the place that it waited for was still not reached.
    pub fn expired<R: Wait>(&self, _rt: &R) -> bool {
        self.expired.load(Ordering::SeqCst)
    }

    fn named(&self, who: u32, at: u32) -> Named {
        let mut named = Named {
            ending: 0,
            holding: 0,
        };
        let mut bit = 1u64;
        for hold in self.holds.iter() {
            if hold.until_who == who && hold.until_at == at {
                named.ending |= bit;
            }
            if hold.who == who && hold.at == at {
                named.holding |= bit;
            }
            bit = bit.rotate_left(1);
        }
        named
    }

    fn have_ended(&self, holds: u64) -> bool {
        self.ended.load(Ordering::SeqCst) & holds == holds
    }
}

impl Gate for HoldGate {
    fn reach<R: Wait>(&self, _rt: &R, who: u32, at: u32) {
        let named = self.named(who, at);
        self.ended.fetch_or(named.ending, Ordering::SeqCst);
        for _ in 0..self.turns {
            if self.have_ended(named.holding) {
                return;
            }
            yield_now();
        }
        if !self.have_ended(named.holding) {
            self.expired.store(true, Ordering::SeqCst);
        }
    }
}
