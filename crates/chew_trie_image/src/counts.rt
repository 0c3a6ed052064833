ghost use Rattle.std.specs.Prelude.{◌≡◌, ◌+◌, ◌*◌, ◌≤◌, ◌<◌, ◌^◌, IfOk, IfErr, OnOk, None, Some, length};
ghost use Rattle.chew_spec_image.specs.Fields.{header_bytes};
ghost use Rattle.chew_spec_image.specs.Reading.{counts_fault, counts_in, image_end, rows_place, text_place};

use crate::fault::ImageFault;
use crate::fields::ROW_LEN;
use crate::node::NODE_LEN;
use crate::number::u32_at;
use chew_syllable::{KEY_LIMIT, PHRASE_LIMIT, SYSTEM_ROWS_LIMIT};
use std::marker::Model;

/// How many bytes stand before the nodes.
pub const HEADER_LEN: usize = 20;

/// The most nodes that a row needs, one for each syllable of its key.
const ROW_NODES: u32 = KEY_LIMIT as u32;

/// The most bytes of text that a row has, those of its phrase.
const ROW_TEXT: u32 = PHRASE_LIMIT as u32;

/// How many rows, nodes and bytes of text an image has.
#[derive(Clone, Copy, Debug, PartialEq, Eq)]
pub struct Counts {
    /// At most 250,000.
    pub rows: u32,
    /// The empty prefix and the others.
    pub nodes: u32,
    /// The bytes of all phrases.
    pub text: u32,
}

impl Model for Counts {
    ghost use Rattle.chew_spec_image.specs.Fields as spec;

    ghost Value = { spec.Counts };

    ghost view = { λ counts. record { rows = counts.rows; nodes = counts.nodes; text = counts.text } };

    ghost inverse = { λ value. record { rows = value.rows; nodes = value.nodes; text = value.text } };
}

impl Counts {
    #[tactic(auto, unfolding(chew_spec_image::specs::Fields::header_bytes))]
    /// The header's 20 bytes.
    pub fn bytes(&self) -> [u8; 20]
        ensures { result ≡ header_bytes self.now }
    {
        let rows = self.rows.to_le_bytes();
        let nodes = self.nodes.to_le_bytes();
        let text = self.text.to_le_bytes();
        [
            b'C', b'H', b'E', b'W', b'T', b'R', b'I', b'1', rows[0], rows[1], rows[2], rows[3],
            nodes[0], nodes[1], nodes[2], nodes[3], text[0], text[1], text[2], text[3],
        ]
    }

    /// Where the rows begin.
    pub fn rows_place(&self) -> usize
        ensures { result ≡ rows_place self.now }
    {
        HEADER_LEN + NODE_LEN * self.nodes as usize
    }

    /// Where the text begins.
    pub fn text_place(&self) -> usize
        ensures { result ≡ text_place self.now }
    {
        HEADER_LEN + NODE_LEN * self.nodes as usize + ROW_LEN * self.rows as usize
    }

    /// Where the image ends.
    pub fn image_end(&self) -> usize
        ensures { result ≡ image_end self.now }
    {
        HEADER_LEN
            + NODE_LEN * self.nodes as usize
            + ROW_LEN * self.rows as usize
            + self.text as usize
    }
}

/// The numbers in the header of bytes.
pub fn counts_in(bytes: &[u8]) -> Counts
    requires { 20 ≤ length bytes.now }
    ensures { result ≡ counts_in bytes.now }
{
    Counts {
        rows: u32_at(bytes, 8),
        nodes: u32_at(bytes, 12),
        text: u32_at(bytes, 16),
    }
}

/// The first fault of the numbers in a header, for so many bytes.
pub(crate) fn check_counts(counts: &Counts, len: usize) -> Result<(), ImageFault>
    ensures ok { IfOk result (λ _. counts_fault counts.now len ≡ None) }
    ensures whole { OnOk result (len ≡ image_end counts.now) }
    ensures rows { OnOk result (counts.now.rows ≤ 250_000) }
    ensures root { OnOk result (1 ≤ counts.now.nodes) }
    ensures nodes { OnOk result (counts.now.nodes ≤ 11 * counts.now.rows + 1) }
    ensures text { OnOk result (counts.now.text ≤ 44 * counts.now.rows) }
    ensures err { IfErr result (λ fault. counts_fault counts.now len ≡ Some fault.place) }
{
    if counts.rows > SYSTEM_ROWS_LIMIT {
        return Err(ImageFault { place: 8 });
    }
    if counts.nodes == 0 || counts.nodes > ROW_NODES * counts.rows + 1 {
        return Err(ImageFault { place: 12 });
    }
    if counts.text > ROW_TEXT * counts.rows {
        return Err(ImageFault { place: 16 });
    }
    let end = counts.image_end();
    if len != end {
        let place = if len < end { len } else { end };
        return Err(ImageFault {
            place: place as u64,
        });
    }
    Ok(())
}
