ghost use Rattle.std.specs.Prelude.{◌≡◌, ◌+◌, ◌≤◌, length};
ghost use Rattle.chew_spec_image.specs.Fields.{row_at, row_bytes};

use crate::number::{u32_at, u64_at};
use std::marker::Model;

/// A row of an image, besides its key and its phrase.
#[derive(Clone, Copy, Debug, PartialEq, Eq)]
pub struct RowFields {
    /// At most 99,999,999.
    pub freq: u32,
    /// Where its phrase begins in the text.
    pub text_start: u32,
    /// How many bytes its phrase has.
    pub text_len: u32,
    /// The life of the dictionary at the last learn; 0 in a system.
    pub time: u64,
}

impl Model for RowFields {
    ghost use Rattle.chew_spec_image.specs.Fields as spec;

    ghost Value = { spec.RowFields };

    ghost view = { λ row. record { freq = row.freq; text_start = row.text_start; text_len = row.text_len; time = row.time } };

    ghost inverse = { λ value. record { freq = value.freq; text_start = value.text_start; text_len = value.text_len; time = value.time } };
}

/// How many bytes a row has, besides its phrase.
pub const ROW_LEN: usize = 20;

#[tactic(auto, unfolding(chew_spec_image::specs::Fields::row_at))]
/// The row in the 20 bytes from a place on.
pub fn row_at(bytes: &[u8], place: usize) -> RowFields
    requires { place + 20 ≤ length bytes.now }
    ensures { result ≡ row_at bytes.now place }
{
    RowFields {
        freq: u32_at(bytes, place),
        text_start: u32_at(bytes, place + 4),
        text_len: u32_at(bytes, place + 8),
        time: u64_at(bytes, place + 12),
    }
}

impl RowFields {
    #[tactic(auto, unfolding(chew_spec_image::specs::Fields::row_bytes))]
    /// Its 20 bytes.
    pub fn bytes(&self) -> [u8; 20]
        ensures { result ≡ row_bytes self.now }
    {
        let freq = self.freq.to_le_bytes();
        let start = self.text_start.to_le_bytes();
        let len = self.text_len.to_le_bytes();
        let time = self.time.to_le_bytes();
        [
            freq[0], freq[1], freq[2], freq[3], start[0], start[1], start[2], start[3], len[0],
            len[1], len[2], len[3], time[0], time[1], time[2], time[3], time[4], time[5], time[6],
            time[7],
        ]
    }
}
