ghost use Rattle.std.specs.Prelude.{◌≡◌, [], None};
ghost use Rattle.chew_spec_outside.specs.FailingCalls.{names};

use std::alloc::Global;
use std::marker::Model;

/// Names the calls of an object in memory that fail, counted from 1: each that `at` lists, in any
/// order, and every one from the call `from` on. The object counts its calls up to 2^64-1 and no
/// further, so each call past that one has its number.
#[derive(Debug, Drop)]
pub struct Fails {
    /// Single calls.
    pub at: Vec<u64>,
    /// The first of all later calls.
    pub from: Option<u64>,
}

impl Model for Fails {
    ghost use Rattle.chew_spec_outside.specs.FailingCalls.{FailingCalls};

    ghost Value = { FailingCalls };

    ghost view = { λ a. record { at = a.at.items; from = a.from } };
}

impl Fails {
    /// Names no call.
    pub fn never(alloc: Global) -> Fails
        ensures { result ≡ record { at = []; from = None } }
    {
        Fails {
            at: Vec::new(alloc),
            from: None,
        }
    }

    /// Whether the call of this number fails.
    pub(crate) fn names(&self, call: u64) -> bool
        ensures { result ≡ names self.now call }
    {
        if self.at.contains(&call) {
            return true;
        }
        match self.from {
            Some(first) => first <= call,
            None => false,
        }
    }
}
