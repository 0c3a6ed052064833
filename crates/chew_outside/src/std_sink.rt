ghost use Rattle.std.specs.Prelude.{◌≡◌, ℕ, ◌<◌, ◌≤◌, [], length, None, is_err, IfOk, OnErr};
ghost use Rattle.std.specs.Io.KnownBytes.{WriteAppends};
ghost use Rattle.chew_spec_outside.specs.Faults.{HasCause};
ghost use Rattle.chew_spec_outside.specs.Memory.{counted};
ghost use Rattle.chew_spec_outside.specs.Sink.{Takes, appended};

use crate::interrupts::TRIES;
use crate::{Failed, Sink};
use std::io::{ErrorKind, Write};
use std::marker::Model;

/// A sink over a writer of std. What it took is not told: nothing is known of the outside. A writer
/// that keeps bytes back, as a `BufWriter`, would tell a later failure to nobody here, so give one
/// that passes them on at once.
#[derive(Drop)]
pub struct StdSink<W> {
    writer: W,
    faults: u64,
}

impl<W> Model for StdSink<W> {
    ghost use Rattle.chew_spec_outside.specs.Standard.{OverStandard};

    ghost Value = { OverStandard W };

    ghost view = { λ a. record { under = a.writer; faults = a.faults } };
}

impl<W: Write> StdSink<W> {
    /// Writes to this writer.
    pub fn of(writer: W) -> StdSink<W>
        ensures { result ≡ record { under = writer; faults = 0 } }
    {
        StdSink { writer, faults: 0 }
    }
}

impl<W: Write> Sink for StdSink<W> {
    ghost taken = { λ a. None };

    ghost faults = { λ a. a.faults };

    /// One write, made again where a signal interrupts it, up to 2^32-1 times. What is known of the
    /// writer's bytes holds of this write: it adds those that it counts, and none where it fails. A
    /// writer that takes nothing of a piece that isn't empty has failed.
    fn write(&mut self, bytes: &[u8]) -> Result<usize, Failed>
        ensures cause { HasCause self.old.faults self.new.faults (is_err result) }
        ensures ok { IfOk result (λ n. Takes None None bytes.now n) }
        ensures err { OnErr result (None ≡ appended None []) }
        ensures under { WriteAppends (W.contents self.old.under) (W.contents self.new.under) result bytes.now }
        ensures faults { self.new.faults ≡ counted (is_err result) self.old.faults }
    {
        match write_uninterrupted(&mut self.writer, bytes) {
            Ok(count) => Ok(count),
            Err(Failed) => {
                self.faults = self.faults.saturating_add(1);
                Err(Failed)
            }
        }
    }
}

fn write_uninterrupted<W: Write>(writer: &mut W, bytes: &[u8]) -> Result<usize, Failed>
    ensures fits { IfOk result (λ n. n ≤ length bytes.now) }
    ensures some { IfOk result (λ n. 0 < length bytes.now → 0 < n) }
    ensures under { WriteAppends (W.contents writer.old) (W.contents writer.new) result bytes.now }
{
    'trying: for _ in 0..TRIES {
        match writer.write(bytes) {
            Ok(0) if !bytes.is_empty() => return Err(Failed),
            Ok(count) => return Ok(count),
            Err(fault) => {
                if fault.kind() != ErrorKind::Interrupted {
                    return Err(Failed);
                }
            }
        }
    }
    Err(Failed)
}
