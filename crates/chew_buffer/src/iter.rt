ghost use Rattle.std.specs.Prelude.{◌≡◌, [], None, Some};
ghost use Rattle.std.specs.Iterator.{YieldsFirstBy, item_count};
ghost use Rattle.std.specs.List.{take_while};
ghost use Rattle.chew_buffer.specs.Marks.{is_mark_under, marked_of, marks_in};

use crate::mark::Mark;
use crate::ranked::Ranked;
use chew_syllable::{Key, Phrase};
use std::collections::btree_map::Range;
use std::marker::Model;

/// A pair, lent from its layer, and the mark that it has.
#[derive(Clone, Copy, Debug)]
pub struct MarkRef<'a> {
    /// What the phrase stands under.
    pub key: &'a Key,
    /// As many characters as the key has syllables.
    pub phrase: &'a Phrase,
    /// What the layer says of the pair.
    pub mark: Mark,
}

/// Marks in image order. It is seen as those that are left.
#[derive(Drop)]
pub struct MarksIter<'a> {
    rest: Range<'a, Ranked, Mark>,
    only: Option<Key>,
    ended: bool,
}

impl<'a> Model for MarksIter<'a> {
    ghost use Rattle.std.specs.Prelude.{List};
    ghost use Rattle.chew_spec_layers.specs.Mark.{Marked};
    ghost use Rattle.chew_buffer.specs.Rest.{left};
    ghost use Rattle.chew_buffer.specs.Marks.{marks_in};

    ghost Value = { List Marked };

    ghost view = { λ it. left it.ended it.only (marks_in it.rest) };
}

impl<'a> MarksIter<'a> {
    /// All of these marks.
    pub(crate) fn all(rest: Range<'a, Ranked, Mark>) -> MarksIter<'a>
        ensures { result ≡ marks_in rest.entry }
    {
        MarksIter {
            rest,
            only: None,
            ended: false,
        }
    }

    /// These marks up to the first of another key.
    pub(crate) fn of_key(rest: Range<'a, Ranked, Mark>, key: Key) -> MarksIter<'a>
        ensures { result ≡ take_while (is_mark_under key) (marks_in rest.entry) }
    {
        MarksIter {
            rest,
            only: Some(key),
            ended: false,
        }
    }

    /// None of these marks.
    pub(crate) fn none(rest: Range<'a, Ranked, Mark>) -> MarksIter<'a>
        ensures { result ≡ [] }
    {
        MarksIter {
            rest,
            only: None,
            ended: true,
        }
    }
}

impl<'a> Iterator for MarksIter<'a> {
    type Item = MarkRef<'a>;

    ghost next_gives = { YieldsFirstBy (λ item. marked_of item.key.now item.phrase.now item.mark) (λ left. left) };

    ghost remaining = { item_count (λ left. left) };

    fn next(&mut self) -> Option<MarkRef<'a>> {
        if self.ended {
            return None;
        }
        let (pair, mark) = self.rest.next()?;
        if !pair.is_wanted(&self.only) {
            self.ended = true;
            return None;
        }
        Some(MarkRef {
            key: &pair.key,
            phrase: &pair.phrase,
            mark: *mark,
        })
    }
}
