ghost use Rattle.std.specs.Prelude.{◌≡◌, ℕ, ◌<◌, ◌≤◌, length, None, is_err, IfOk, OnErr};
ghost use Rattle.std.specs.Io.KnownBytes.{ReadConsumes};
ghost use Rattle.chew_spec_outside.specs.Faults.{HasCause};
ghost use Rattle.chew_spec_outside.specs.Memory.{counted};
ghost use Rattle.chew_spec_outside.specs.Source.{Loses, Reads};

use crate::interrupts::TRIES;
use crate::{Failed, Source};
use std::io::{ErrorKind, Read};
use std::marker::Model;

/// A source over a reader of std. What it has left is not told: nothing is known of the outside.
#[derive(Drop)]
pub struct StdSource<R> {
    reader: R,
    faults: u64,
}

impl<R> Model for StdSource<R> {
    ghost use Rattle.chew_spec_outside.specs.Standard.{OverStandard};

    ghost Value = { OverStandard R };

    ghost view = { λ a. record { under = a.reader; faults = a.faults } };
}

impl<R: Read> StdSource<R> {
    /// Reads from this reader.
    pub fn of(reader: R) -> StdSource<R>
        ensures { result ≡ record { under = reader; faults = 0 } }
    {
        StdSource { reader, faults: 0 }
    }
}

impl<R: Read> Source for StdSource<R> {
    ghost left = { λ a. None };

    ghost faults = { λ a. a.faults };

    /// One read, made again where a signal interrupts it, up to 2^32-1 times. What is known of the
    /// reader's bytes holds of this read: it answers 0 only at their end, and loses none where it
    /// fails.
    fn read(&mut self, into: &mut [u8]) -> Result<usize, Failed>
        ensures cause { HasCause self.old.faults self.new.faults (is_err result) }
        ensures ok { IfOk result (λ n. Reads None None into.old into.new n) }
        ensures err { OnErr result (Loses None None (length into.old)) }
        ensures under { ReadConsumes (R.remaining self.old.under) (R.remaining self.new.under) result into.new }
        ensures faults { self.new.faults ≡ counted (is_err result) self.old.faults }
    {
        match read_uninterrupted(&mut self.reader, into) {
            Ok(count) => Ok(count),
            Err(Failed) => {
                self.faults = self.faults.saturating_add(1);
                Err(Failed)
            }
        }
    }
}

fn read_uninterrupted<R: Read>(reader: &mut R, into: &mut [u8]) -> Result<usize, Failed>
    ensures fits { IfOk result (λ n. n ≤ length into.old) }
    ensures under { ReadConsumes (R.remaining reader.old) (R.remaining reader.new) result into.new }
{
    'trying: for _ in 0..TRIES {
        match reader.read(into) {
            Ok(count) => return Ok(count),
            Err(fault) => {
                if fault.kind() != ErrorKind::Interrupted {
                    return Err(Failed);
                }
            }
        }
    }
    Err(Failed)
}
