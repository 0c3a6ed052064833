ghost use Rattle.std.specs.Prelude.{◌≡◌, ℕ, ◌<◌, List, length, take, Option, is_err, IfOk, OnOk, OnErr};
ghost use Rattle.chew_spec_outside.specs.Faults.{HasCause};
ghost use Rattle.chew_spec_outside.specs.Sink.{Takes, appended};

use crate::Failed;

/// Takes bytes to the outside, in order. A sink may tell what it took; one that doesn't has `None`
/// there.
pub trait Sink {
    ghost taken: { Self → Option (List ℕ) };

    ghost faults: { Self → ℕ };

    /// Takes some bytes of the front of `bytes` and answers how many, never 0 of a piece that isn't
    /// empty.
    fn write(&mut self, bytes: &[u8]) -> Result<usize, Failed>
        ensures cause { HasCause (faults self.old) (faults self.new) (is_err result) }
        ensures ok { IfOk result (λ n. Takes (taken self.old) (taken self.new) bytes.now n) }
        ensures err { OnErr result (taken self.new ≡ taken self.old) };
}

/// Writes all of `bytes`, or stops at the first write that fails, where the sink may have taken a
/// part of them.
pub fn write_all<O: Sink>(sink: &mut O, bytes: &[u8]) -> Result<(), Failed>
    ensures cause { HasCause (O.faults sink.old) (O.faults sink.new) (is_err result) }
    ensures ok { OnOk result (O.taken sink.new ≡ appended (O.taken sink.old) bytes.now) }
    ensures err { OnErr result ((n : ℕ) × (n < length bytes.now) ×
        (O.taken sink.new ≡ appended (O.taken sink.old) (take n bytes.now))) }
{
    let mut done = 0;
    'writing: while done < bytes.len() {
        done += sink.write(&bytes[done..])?;
    }
    Ok(())
}
