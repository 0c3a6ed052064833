ghost use Rattle.std.specs.Prelude.{◌≡◌, ℕ, ◌+◌, ◌<◌, ◌≤◌, List, length, Option, is_err, IfOk, OnErr};
ghost use Rattle.chew_spec_outside.specs.Faults.{HasCause};
ghost use Rattle.chew_spec_outside.specs.Source.{Loses, Reads, ReadsUpTo};
ghost use Rattle.chew_outside.specs.ReadFault.{source_failed};

use crate::Failed;
use std::alloc::Global;

/// Bytes that come from outside, in order. A source may tell what it has left; one that doesn't
/// has `None` there.
pub trait Source {
    ghost left: { Self → Option (List ℕ) };

    ghost faults: { Self → ℕ };

    /// Reads some bytes into the front of `into` and answers how many. 0 for a buffer that isn't
    /// empty is the end. A read that failed may have lost bytes, no more than there was room for.
    fn read(&mut self, into: &mut [u8]) -> Result<usize, Failed>
        ensures cause { HasCause (faults self.old) (faults self.new) (is_err result) }
        ensures ok { IfOk result (λ n. Reads (left self.old) (left self.new) into.old into.new n) }
        ensures err { OnErr result (Loses (left self.old) (left self.new) (length into.old)) };
}

/// Why a bounded read gave no text.
#[derive(Debug, Clone, Copy, PartialEq, Eq)]
pub enum ReadFault {
    /// The source failed.
    Failed,
    /// Memory for the text was refused.
    NoMemory,
}

/// How many bytes are asked of a source at a time.
const PIECE: usize = 4096;

/// Reads a source to its end, or to one byte past `limit` where it has more: so a text is too long
/// for the limit exactly where its length is `limit + 1`. The bytes of a text that an error cut off
/// are lost to the source.
pub fn read_up_to<S: Source>(
    alloc: Global,
    source: &mut S,
    limit: usize,
) -> Result<Vec<u8>, ReadFault>
    requires { limit < usize.MAX }
    ensures cause { HasCause (S.faults source.old) (S.faults source.new) (source_failed result) }
    ensures ok { IfOk result (λ text.
        ReadsUpTo (S.left source.old) (S.left source.new) text.items (limit + 1)) }
    ensures err { OnErr result (Loses (S.left source.old) (S.left source.new) (limit + 1)) }
{
    let most = limit + 1;
    let mut text = Vec::new(alloc);
    let mut buffer = [0; PIECE];
    'reading: while text.len() < most {
        let room = (most - text.len()).min(PIECE);
        let piece = &mut buffer[..room];
        match source.read(piece) {
            Ok(0) => return Ok(text),
            Ok(count) => {
                if text.extend_from_slice(&piece[..count]).is_err() {
                    return Err(ReadFault::NoMemory);
                }
            }
            Err(Failed) => return Err(ReadFault::Failed),
        }
    }
    Ok(text)
}
