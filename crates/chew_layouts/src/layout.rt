ghost use Rattle.std.specs.Prelude.{◌≡◌, IsTrue};
ghost use Rattle.chew_spec_layout.specs.Layout.{new_layout, feed, cleared, holds, shown, is_layout};
ghost use Rattle.chew_syllable.specs.Step.{step_of};
ghost use Rattle.chew_layouts.specs.Layouts.{kind_of, layout_of};

use crate::kind::Kind;
use arrayvec::ArrayString;
use chew_layout_26::{Letters, Raw26};
use chew_layout_pinyin::Pinyin;
use chew_layout_table::{Direct, Table};
use chew_syllable::Step;

/// A layout, and what was typed of a syllable.
#[derive(Debug, Drop)]
pub enum Layout {
    /// A layout in which each key is one part of a syllable.
    Direct(Direct),
    /// A layout in which each key is a letter that may stand for several parts.
    Raw26(Raw26),
    /// A layout in which letters spell a syllable.
    Pinyin(Pinyin),
}

impl Layout {
    /// A layout that holds nothing.
    pub fn of(kind: Kind) -> Layout
        ensures { layout_of result ≡ new_layout (kind_of kind) }
    {
        match kind {
            Kind::Standard => Layout::Direct(Direct::of(Table::Standard)),
            Kind::Eten => Layout::Direct(Direct::of(Table::Eten)),
            Kind::Hsu => Layout::Raw26(Raw26::of(Letters::Hsu)),
            Kind::Et26 => Layout::Raw26(Raw26::of(Letters::Et26)),
            Kind::Pinyin => Layout::Pinyin(Pinyin::of()),
        }
    }

    /// Takes a key, given as its character in ASCII, or 8 for Backspace.
    pub fn feed(&mut self, key: u8) -> Step
        ensures step { step_of result ≡ (feed (layout_of self.old) key).step }
        ensures layout { layout_of self.new ≡ (feed (layout_of self.old) key).layout }
        ensures valid { IsTrue (is_layout (layout_of self.new)) }
    {
        match self {
            Layout::Direct(direct) => direct.feed(key),
            Layout::Raw26(raw) => raw.feed(key),
            Layout::Pinyin(pinyin) => pinyin.feed(key),
        }
    }

    /// Lets go of what it holds.
    pub fn clear(&mut self)
        ensures { layout_of self.new ≡ cleared (layout_of self.old) }
    {
        match self {
            Layout::Direct(direct) => direct.clear(),
            Layout::Raw26(raw) => raw.clear(),
            Layout::Pinyin(pinyin) => pinyin.clear(),
        }
    }

    /// Whether it holds a part or a letter.
    pub fn holds(&self) -> bool
        ensures value { result ≡ holds (layout_of self.now) }
        ensures valid { IsTrue (is_layout (layout_of self.now)) }
    {
        match self {
            Layout::Direct(direct) => direct.holds(),
            Layout::Raw26(raw) => raw.holds(),
            Layout::Pinyin(pinyin) => pinyin.holds(),
        }
    }

    /// What it holds, in UTF-8: the marks of the parts, or the letters.
    pub fn shown(&self) -> ArrayString<12>
        ensures { result.bytes ≡ shown (layout_of self.now) }
    {
        match self {
            Layout::Direct(direct) => direct.shown(),
            Layout::Raw26(raw) => raw.shown(),
            Layout::Pinyin(pinyin) => pinyin.shown(),
        }
    }

    /// The same layout once more. It takes no memory.
    pub fn copy(&self) -> Layout
        ensures { result ≡ self.now }
    {
        match self {
            Layout::Direct(direct) => Layout::Direct(direct.copy()),
            Layout::Raw26(raw) => Layout::Raw26(raw.copy()),
            Layout::Pinyin(pinyin) => Layout::Pinyin(pinyin.copy()),
        }
    }
}
