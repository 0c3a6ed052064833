ghost use Rattle.std.specs.Iterator.{YieldsFirstBy, item_count};
ghost use Rattle.std.specs.Prelude.{◌≡◌, ◌≤◌, length, map};
ghost use Rattle.chew_trie_read.specs.Rest.{Lent, lent, rows_between};

use crate::image::Image;
use crate::keys::key_of;
use chew_plain::RowRef;
use chew_syllable::Key;
use std::marker::Model;

/// The rows of a key, in the order of their phrases' bytes. It is seen as those that are left.
#[derive(Drop)]
pub struct RowsIter<'a> {
    image: Image<'a>,
    next: u32,
    end: u32,
}

impl<'a> Model for RowsIter<'a> {
    ghost use Rattle.std.specs.Prelude.{◌≤◌, List, length, map};
    ghost use Rattle.chew_trie_read.specs.Rest.{Lent, lent, rows_between};

    ghost Value = { List Lent };

    ghost view = { λ it. map lent (rows_between it.image it.next it.end) };

    ghost invariant = { λ it. it.end ≤ length it.image };
}

impl<'a> RowsIter<'a> {
    /// The rows from one place up to another.
    pub(crate) fn of(image: Image<'a>, start: u32, end: u32) -> RowsIter<'a>
        requires { end ≤ length image }
        ensures { result ≡ map lent (rows_between image.entry start end) }
    {
        RowsIter {
            image,
            next: start,
            end,
        }
    }
}

impl<'a> Iterator for RowsIter<'a> {
    type Item = RowRef<'a>;

    ghost next_gives = { YieldsFirstBy (λ row. record { phrase = row.phrase.now; freq = row.freq; time = row.time }) (λ left. left) };

    ghost remaining = { item_count (λ left. left) };

    fn next(&mut self) -> Option<RowRef<'a>> {
        if self.next >= self.end {
            return None;
        }
        let row = self.image.row(self.next);
        self.next += 1;
        Some(row)
    }
}

/// All rows in image order, each with its key. It is seen as those that are left.
#[derive(Drop)]
pub struct EachIter<'a> {
    image: Image<'a>,
    next: u32,
}

impl<'a> Model for EachIter<'a> {
    ghost use Rattle.std.specs.Prelude.{List, drop};
    ghost use Rattle.chew_spec_syllable.specs.Row.{Row};

    ghost Value = { List Row };

    ghost view = { λ it. drop it.next it.image };
}

impl<'a> EachIter<'a> {
    /// All rows of an image.
    pub(crate) fn of(image: Image<'a>) -> EachIter<'a>
        ensures { result ≡ image.entry }
    {
        EachIter { image, next: 0 }
    }
}

impl<'a> Iterator for EachIter<'a> {
    type Item = (Key, RowRef<'a>);

    ghost next_gives = { YieldsFirstBy (λ item. record { key = item.0; phrase = item.1.phrase.now; freq = item.1.freq; time = item.1.time }) (λ left. left) };

    ghost remaining = { item_count (λ left. left) };

    fn next(&mut self) -> Option<(Key, RowRef<'a>)> {
        if self.next >= self.image.rows() {
            return None;
        }
        let key = key_of(&self.image, self.next);
        let row = self.image.row(self.next);
        self.next += 1;
        Some((key, row))
    }
}
