ghost use Rattle.std.specs.Prelude.{◌≡◌, ◌+◌, ◌<◌, ◌≤◌, ◌^◌, IfOk, IfErr, None, Some, length, drop};
ghost use Rattle.chew_spec_image.specs.Reading.{at_rows};
ghost use Rattle.chew_spec_image.specs.ReadRows.{past_row, phrase_fits, phrase_in, row_fault};

use crate::counts::Counts;
use crate::fault::ImageFault;
use crate::fields::{ROW_LEN, RowFields};
use crate::phrase::is_phrase_of;
use chew_syllable::GREATEST_FREQ;
use std::marker::Model;

/// What the rows read so far leave.
#[derive(Drop)]
pub(crate) struct RowsRead<'a> {
    /// The phrase of the last one.
    phrase: &'a [u8],
    /// The bytes of all their phrases.
    pub(crate) text_start: u32,
    /// Where the next one begins in the image.
    pub(crate) place: usize,
}

impl<'a> Model for RowsRead<'a> {
    ghost use Rattle.chew_spec_image.specs.ReadRows as spec;

    ghost Value = { spec.RowsRead };

    ghost view = { λ read. record { phrase = read.phrase.now; text_start = read.text_start; place = read.place } };
}

/// The phrase of a row, among the phrases of all rows.
pub fn phrase_in<'a>(text: &'a [u8], row: &RowFields) -> &'a [u8]
    requires { row.now.text_start + row.now.text_len ≤ length text.now }
    ensures { result.now ≡ phrase_in text.now row.now }
{
    let start = row.text_start as usize;
    &text[start..start + row.text_len as usize]
}

impl<'a> RowsRead<'a> {
    /// Before the first row.
    pub(crate) fn at_rows(counts: &Counts) -> RowsRead<'a>
        ensures { result ≡ at_rows counts.now }
    {
        RowsRead {
            phrase: &[],
            text_start: 0,
            place: counts.rows_place(),
        }
    }

    /// One row more.
    pub(crate) fn past(&self, text: &'a [u8], row: &RowFields) -> RowsRead<'a>
        requires text { row.now.text_start + row.now.text_len ≤ length text.now }
        requires start { row.now.text_start ≡ self.now.text_start }
        requires short { length text.now < 2 ^ 32 }
        requires place { self.now.place + 20 < 2 ^ 64 }
        ensures { result ≡ past_row text.now self.now row.now }
    {
        RowsRead {
            phrase: phrase_in(text, row),
            text_start: self.text_start + row.text_len,
            place: self.place + ROW_LEN,
        }
    }

    /// Whether the next row may have this phrase.
    fn phrase_fits(&self, len: u32, first: bool, phrase: &[u8]) -> bool
        ensures { result ≡ phrase_fits len first self.now phrase.now }
    {
        if !is_phrase_of(phrase, len) {
            return false;
        }
        first || self.phrase.cmp(phrase).is_lt()
    }

    /// The fault of a field of the next row, by its offset there.
    fn fault(&self, offset: usize) -> ImageFault
        requires { self.now.place + offset < 2 ^ 64 }
        ensures { result.place ≡ self.now.place + offset }
    {
        ImageFault {
            place: (self.place + offset) as u64,
        }
    }

    /// The first fault of the next row, by how many codes its key has, and whether it is the first of its key.
    pub(crate) fn check_row(
        &self,
        text: &[u8],
        len: u32,
        first: bool,
        row: &RowFields,
    ) -> Result<(), ImageFault>
        requires { self.now.place + 20 < 2 ^ 64 }
        ensures ok { IfOk result (λ _. row_fault text.now len first self.now row.now ≡ None) }
        ensures err { IfErr result (λ fault. row_fault text.now len first self.now row.now ≡ Some fault.place) }
    {
        if row.freq > GREATEST_FREQ {
            return Err(self.fault(0));
        }
        if row.text_start != self.text_start {
            return Err(self.fault(4));
        }
        let end = self.text_start as usize + row.text_len as usize;
        if end > text.len() {
            return Err(self.fault(8));
        }
        if !self.phrase_fits(len, first, phrase_in(text, row)) {
            return Err(self.fault(8));
        }
        Ok(())
    }
}
