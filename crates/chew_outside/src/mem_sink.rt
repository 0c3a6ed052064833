ghost use Rattle.std.specs.Prelude.{◌≡◌, ℕ, ◌<◌, ◌≤◌, length, Some, not, ◌&&◌, is_err, IsTrue, IsErr, IfOk, OnErr};
ghost use Rattle.chew_spec_outside.specs.FailingCalls.{names};
ghost use Rattle.chew_spec_outside.specs.Faults.{HasCause, risen};
ghost use Rattle.chew_spec_outside.specs.Memory.{counted, new_sink};
ghost use Rattle.chew_spec_outside.specs.Sink.{Takes};

use crate::{Failed, Fails, Sink};
use std::alloc::Global;
use std::marker::Model;

/// A sink that keeps what it takes in memory, and fails where it is told to or where memory is
/// refused.
#[derive(Debug, Drop)]
pub struct MemSink {
    taken: Vec<u8>,
    fails: Fails,
    calls: u64,
    faults: u64,
    refused: u64,
}

impl Model for MemSink {
    ghost use Rattle.chew_spec_outside.specs.Memory.{SinkState};

    ghost Value = { SinkState };

    ghost view = { λ a. record {
      taken = a.taken.items;
      fails = a.fails;
      calls = a.calls;
      faults = a.faults;
      refused = a.refused;
    } };
}

impl MemSink {
    /// Has taken nothing.
    pub fn of(alloc: Global, fails: Fails) -> MemSink
        ensures { result ≡ new_sink fails }
    {
        MemSink {
            taken: Vec::new(alloc),
            fails,
            calls: 0,
            faults: 0,
            refused: 0,
        }
    }

    /// What was taken.
    pub fn bytes(&self) -> &[u8]
        ensures { result.now ≡ self.now.taken }
    {
        self.taken.as_slice()
    }

    /// How many writes failed because memory for their bytes was refused, up to 2^64-1.
    pub fn refused(&self) -> u64
        ensures { result ≡ self.now.refused }
    {
        self.refused
    }
}

impl Sink for MemSink {
    ghost taken = { λ a. Some a.taken };

    ghost faults = { λ a. a.faults };

    /// Fails where its number is named, and else only where memory for the bytes is refused, which
    /// `refused` counts; else it takes them all.
    fn write(&mut self, bytes: &[u8]) -> Result<usize, Failed>
        ensures cause { HasCause self.old.faults self.new.faults (is_err result) }
        ensures ok { IfOk result (λ n.
            Takes (Some self.old.taken) (Some self.new.taken) bytes.now n) }
        ensures err { OnErr result (Some self.new.taken ≡ Some self.old.taken) }
        ensures named { IsTrue (names self.old.fails (risen self.old.calls)) → IsErr result }
        ensures count { IfOk result (λ n. n ≡ length bytes.now) }
        ensures calls { self.new.calls ≡ risen self.old.calls }
        ensures faults { self.new.faults ≡ counted (is_err result) self.old.faults }
        ensures refused { self.new.refused ≡
            counted (is_err result && not (names self.old.fails (risen self.old.calls))) self.old.refused }
        ensures fails_same { self.new.fails ≡ self.old.fails }
    {
        self.calls = self.calls.saturating_add(1);
        if self.fails.names(self.calls) {
            self.faults = self.faults.saturating_add(1);
            return Err(Failed);
        }
        if self.taken.extend_from_slice(bytes).is_err() {
            self.faults = self.faults.saturating_add(1);
            self.refused = self.refused.saturating_add(1);
            return Err(Failed);
        }
        Ok(bytes.len())
    }
}
