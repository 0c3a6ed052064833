ghost use Rattle.std.specs.Prelude.{◌≡◌, ℕ, ◌<◌, ◌≤◌, IsTrue, List, None, Some, length, slice_get};
ghost use Rattle.std.specs.List.{list_all};
ghost use Rattle.std.specs.Str.{IsUtf8};
ghost use Rattle.chew_spec_syllable.specs.Row.{is_row};
ghost use Rattle.chew_spec_dictionary.specs.Dictionary.{is_map};
ghost use Rattle.chew_spec_image.specs.Image.{image};
ghost use Rattle.chew_spec_image.specs.NodeKeys.{node_keys};
ghost use Rattle.chew_spec_image.specs.Reading.{image_place, rows_in};
ghost use Rattle.chew_trie_read.specs.Search.{IsNode};

use chew_plain::RowRef;
use chew_syllable::utf8_of;
use chew_trie_image::{
    Counts, HEADER_LEN, NODE_LEN, Node, ROW_LEN, counts_in, node_at, phrase_in, row_at,
};
use std::marker::Model;

/// The bytes of an image, lent. It is seen as the rows that the image stands for.
#[derive(Drop)]
pub(crate) struct Image<'a> {
    bytes: &'a [u8],
    counts: Counts,
}

impl<'a> Model for Image<'a> {
    ghost use Rattle.std.specs.Prelude.{List};
    ghost use Rattle.chew_spec_syllable.specs.Row.{Row};
    ghost use Rattle.chew_spec_image.specs.Reading.{rows_in};
    ghost use Rattle.chew_trie_read.specs.ImageBytes.{IsStored};

    ghost Value = { List Row };

    ghost view = { λ image. rows_in image.bytes.now };

    ghost invariant = { λ image. IsStored image.bytes.now image.counts };
}

/// Bytes without a fault are the image of what they stand for. It does nothing, and is there for proofs alone.
pub(crate) fn are_an_image(bytes: &[u8])
    requires { image_place bytes.now ≡ None }
    ensures { image (rows_in bytes.now) ≡ bytes.now }
{}

impl<'a> Image<'a> {
    /// The image that these bytes are.
    pub(crate) fn of(bytes: &'a [u8]) -> Image<'a>
        requires { image_place bytes.now ≡ None }
        ensures { result ≡ rows_in bytes.now }
    {
        Image {
            bytes,
            counts: counts_in(bytes),
        }
    }

    /// How many rows it has.
    pub(crate) fn rows(&self) -> u32
        ensures value { result ≡ length self.now }
        ensures map { IsTrue (is_map self.now) }
        ensures each { IsTrue (list_all is_row self.now) }
        ensures few { result ≤ 250_000 }
    {
        self.counts.rows
    }

    /// How many nodes it has.
    pub(crate) fn nodes(&self) -> u32
        ensures value { result ≡ length (node_keys self.now) }
        ensures few { result ≤ 2_750_001 }
    {
        self.counts.nodes
    }

    /// A node, counted from 0.
    pub(crate) fn node(&self, i: u32) -> Node
        requires { i < length (node_keys self.now) }
        ensures { IsNode self.now i result }
    {
        node_at(self.bytes, HEADER_LEN + NODE_LEN * i as usize)
    }

    /// A row, counted from 0, its phrase lent.
    pub(crate) fn row(&self, place: u32) -> RowRef<'a>
        requires { place < length self.now }
        ensures { (key : List ℕ)
            × (slice_get self.now place ≡ Some (record { key = key; phrase = result.phrase.now; freq = result.freq; time = result.time })) }
    {
        let bytes = self.bytes;
        let row = row_at(bytes, self.counts.rows_place() + ROW_LEN * place as usize);
        let text = &bytes[self.counts.text_place()..];
        RowRef {
            phrase: utf8_of(phrase_in(text, &row)),
            freq: row.freq,
            time: row.time,
        }
    }
}
