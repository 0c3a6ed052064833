ghost use Rattle.std.specs.Prelude.{◌≡◌, ◌≤◌, IfErr, IfOk, IsTrue, None, OnOk, Some, length, map};
ghost use Rattle.std.specs.List.{list_all};
ghost use Rattle.chew_spec_syllable.specs.Row.{is_row};
ghost use Rattle.chew_spec_dictionary.specs.Dictionary.{is_map};
ghost use Rattle.chew_spec_dictionary.specs.System.{rows_of};
ghost use Rattle.chew_spec_image.specs.Image.{image};
ghost use Rattle.chew_spec_image.specs.NodeKeys.{node_keys};
ghost use Rattle.chew_spec_image.specs.Reading.{image_place, rows_in};
ghost use Rattle.chew_trie_read.specs.Rest.{lent};

use crate::image::{Image, are_an_image};
use crate::iter::{EachIter, RowsIter};
use crate::rows::{freq_among, peak_among, places_of};
use chew_plain::{Lexicon, RowRef};
use chew_syllable::Syllable;
use chew_trie_image::{ImageFault, check_image};
use std::marker::Model;
use std::ops::Range;

/// A dictionary in the bytes of an image. It is seen as the rows that the image stands for, in image order.
#[derive(Debug, Drop)]
pub struct Trie {
    bytes: Vec<u8>,
}

impl Model for Trie {
    ghost use Rattle.std.specs.Prelude.{◌≡◌, List, None};
    ghost use Rattle.chew_spec_syllable.specs.Row.{Row};
    ghost use Rattle.chew_spec_image.specs.Reading.{image_place, rows_in};

    ghost Value = { List Row };

    ghost view = { λ trie. rows_in trie.bytes.items };

    ghost invariant = { λ trie. image_place trie.bytes.items ≡ None };
}

impl Trie {
    /// The dictionary that bytes are, or their first faulty place. It takes no memory.
    pub fn of(bytes: Vec<u8>) -> Result<Trie, ImageFault>
        ensures ok { IfOk result (λ trie. trie ≡ rows_in bytes.items) }
        ensures image { OnOk result (image_place bytes.items ≡ None) }
        ensures err { IfErr result (λ fault. image_place bytes.items ≡ Some fault.place) }
    {
        check_image(bytes.as_slice())?;
        Ok(Trie { bytes })
    }

    /// The dictionary of bytes without a fault. It takes no memory.
    pub fn of_image(bytes: Vec<u8>) -> Trie
        requires { image_place bytes.items ≡ None }
        ensures { result ≡ rows_in bytes.items }
    {
        match Trie::of(bytes) {
            Ok(trie) => trie,
            Err(_) => unreachable!(),
        }
    }

    /// The image's bytes, which have no fault and stand for the rows.
    pub fn bytes(&self) -> &[u8]
        ensures image { image self.now ≡ result.now }
        ensures rows { rows_in result.now ≡ self.now }
        ensures whole { image_place result.now ≡ None }
    {
        let bytes = self.bytes.as_slice();
        are_an_image(bytes);
        bytes
    }

    /// How many rows it has, at most 250,000. They are in image order, and no pair stands twice.
    pub fn total(&self) -> u32
        ensures value { result ≡ length self.now }
        ensures map { IsTrue (is_map self.now) }
        ensures each { IsTrue (list_all is_row self.now) }
        ensures few { result ≤ 250_000 }
    {
        self.image().rows()
    }

    /// How many nodes its image has: one for each prefix of a key, the empty one too.
    pub fn nodes(&self) -> u32
        ensures { result ≡ length (node_keys self.now) }
    {
        self.image().nodes()
    }

    /// The rows of a key, in the order of their phrases' bytes, lent.
    pub fn rows(&self, key: &[Syllable]) -> RowsIter<'_>
        ensures { result ≡ map lent (rows_of self.now key.now) }
    {
        let image = self.image();
        let places = places_of(&image, key);
        RowsIter::of(image, places.start, places.end)
    }

    /// All rows in image order, each with its key.
    pub fn each(&self) -> EachIter<'_>
        ensures { result ≡ self.now }
    {
        EachIter::of(self.image())
    }

    /// The image, to be read.
    pub(crate) fn image(&self) -> Image<'_>
        ensures { result ≡ self.now }
    {
        Image::of(self.bytes.as_slice())
    }
}

impl Lexicon for Trie {
    ghost rows = { λ trie. trie };

    fn places(&self, key: &[Syllable]) -> Range<u32> {
        places_of(&self.image(), key)
    }

    fn row_at(&self, place: u32) -> RowRef<'_> {
        self.image().row(place)
    }

    fn has_single(&self, s: Syllable) -> bool {
        let places = places_of(&self.image(), &[s]);
        places.start < places.end
    }

    fn orig_and_peak(&self, key: &[Syllable], phrase: &str) -> (u32, u32) {
        let image = self.image();
        let places = places_of(&image, key);
        (
            freq_among(&image, places.start, places.end, phrase),
            peak_among(&image, places.start, places.end),
        )
    }
}
