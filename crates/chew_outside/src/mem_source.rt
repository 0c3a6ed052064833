ghost use Rattle.std.specs.Prelude.{◌≡◌, ℕ, ◌<◌, ◌≤◌, min, length, Some, is_err, IfOk, OnErr};
ghost use Rattle.std.specs.Option.{option_map};
ghost use Rattle.chew_spec_outside.specs.FailingCalls.{names};
ghost use Rattle.chew_spec_outside.specs.Faults.{HasCause, risen};
ghost use Rattle.chew_spec_outside.specs.Memory.{counted, new_source};
ghost use Rattle.chew_spec_outside.specs.Source.{Loses, Reads};

use crate::{Failed, Fails, Source};
use std::marker::Model;

/// A source over bytes in memory, which gives a bounded number of bytes a read and fails where it
/// is told to.
#[derive(Debug, Drop)]
pub struct MemSource {
    bytes: Vec<u8>,
    at: usize,
    cut: usize,
    fails: Fails,
    calls: u64,
    faults: u64,
}

impl Model for MemSource {
    ghost use Rattle.std.specs.Prelude.{◌≤◌, drop, vec_len};
    ghost use Rattle.chew_spec_outside.specs.Memory.{SourceState};

    ghost Value = { SourceState };

    ghost view = { λ a. record {
      left = drop a.at a.bytes.items;
      cut = a.cut;
      fails = a.fails;
      calls = a.calls;
      faults = a.faults;
    } };

    ghost invariant = { λ a. (a.at ≤ vec_len a.bytes) × (1 ≤ a.cut) };
}

impl MemSource {
    /// Gives these bytes, at most `cut` a read.
    pub fn of(bytes: Vec<u8>, cut: usize, fails: Fails) -> MemSource
        requires { 1 ≤ cut }
        ensures { result ≡ new_source bytes.items cut fails }
    {
        MemSource {
            bytes,
            at: 0,
            cut,
            fails,
            calls: 0,
            faults: 0,
        }
    }
}

impl Source for MemSource {
    ghost left = { λ a. Some a.left };

    ghost faults = { λ a. a.faults };

    /// Fails exactly where its number is named, and else gives as many bytes as the cut, the buffer
    /// and what is left allow.
    fn read(&mut self, into: &mut [u8]) -> Result<usize, Failed>
        ensures cause { HasCause self.old.faults self.new.faults (is_err result) }
        ensures ok { IfOk result (λ n.
            Reads (Some self.old.left) (Some self.new.left) into.old into.new n) }
        ensures err { OnErr result (Loses (Some self.old.left) (Some self.new.left) (length into.old)) }
        ensures kept { OnErr result (self.new.left ≡ self.old.left) }
        ensures named { is_err result ≡ names self.old.fails (risen self.old.calls) }
        ensures count { IfOk result (λ n.
            n ≡ min self.old.cut (min (length into.old) (length self.old.left))) }
        ensures untouched { OnErr result (into.new ≡ into.old) }
        ensures calls { self.new.calls ≡ risen self.old.calls }
        ensures faults { self.new.faults ≡ counted (is_err result) self.old.faults }
        ensures cut_same { self.new.cut ≡ self.old.cut }
        ensures fails_same { self.new.fails ≡ self.old.fails }
    {
        self.calls = self.calls.saturating_add(1);
        if self.fails.names(self.calls) {
            self.faults = self.faults.saturating_add(1);
            return Err(Failed);
        }
        let left = &self.bytes[self.at..];
        let count = self.cut.min(into.len()).min(left.len());
        into[..count].copy_from_slice(&left[..count]);
        self.at += count;
        Ok(count)
    }
}
