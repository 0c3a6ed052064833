ghost use Rattle.std.specs.Prelude.{◌≡◌, ◌+◌, ◌*◌, ◌<◌, ◌≤◌, ◌^◌, IfErr, None, OnOk, IfOk, Some, length, drop};
ghost use Rattle.chew_spec_image.specs.Reading.{counts_in, header_fault, image_end, text_place};

use crate::counts::{Counts, HEADER_LEN, check_counts, counts_in};
use crate::fault::ImageFault;

/// The bytes with which every image begins.
pub const MAGIC: [u8; 8] = *b"CHEWTRI1";

/// The image of no rows: the magic, no row, one node, no text, and that node.
pub const EMPTY_IMAGE: [u8; 36] = [
    b'C', b'H', b'E', b'W', b'T', b'R', b'I', b'1', 0, 0, 0, 0, 1, 0, 0, 0, 0, 0, 0, 0, 0, 0, 0, 0,
    1, 0, 0, 0, 0, 0, 0, 0, 0, 0, 0, 0,
];

/// Bytes that begin as an image does and are as long as the numbers in their header say.
#[derive(Drop)]
pub(crate) struct Parts<'a> {
    pub(crate) bytes: &'a [u8],
    pub(crate) counts: Counts,
    ghost header: { header_fault bytes.now ≡ None },
    ghost counted: { counts ≡ counts_in bytes.now },
    ghost whole: { length bytes.now ≡ image_end counts },
    ghost few: { counts.rows ≤ 250_000 },
    ghost root: { 1 ≤ counts.nodes },
    ghost nodes: { counts.nodes ≤ 11 * counts.rows + 1 },
    ghost short: { counts.text ≤ 44 * counts.rows },
}

impl<'a> Parts<'a> {
    /// The parts of bytes whose header has no fault.
    pub(crate) fn of(bytes: &'a [u8]) -> Result<Parts<'a>, ImageFault>
        ensures bytes { IfOk result (λ parts. parts.bytes.now ≡ bytes.now) }
        ensures err { IfErr result (λ fault. header_fault bytes.now ≡ Some fault.place) }
    {
        if !bytes.starts_with(&MAGIC) {
            return Err(ImageFault { place: 0 });
        }
        if bytes.len() < HEADER_LEN {
            return Err(ImageFault {
                place: bytes.len() as u64,
            });
        }
        let counts = counts_in(bytes);
        check_counts(&counts, bytes.len())?;
        Ok(Parts { bytes, counts })
    }

    /// The bytes of all phrases.
    pub(crate) fn text(&self) -> &'a [u8]
        ensures value { result.now ≡ drop (text_place self.now.counts) self.now.bytes.now }
        ensures len { length result.now ≡ self.now.counts.text }
        ensures short { length result.now < 2 ^ 32 }
    {
        &self.bytes[self.counts.text_place()..]
    }
}
