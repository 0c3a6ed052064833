use crate::syllable::Syllable;

/// The key Space, which ends a syllable in the first tone.
pub const SPACE: u8 = b' ';

/// The key Backspace, which takes the last part or letter.
pub const BACKSPACE: u8 = 8;

/// What a key did to a layout.
#[derive(Clone, Copy, Debug, PartialEq, Eq)]
pub enum Step {
    /// The layout took the key.
    Kept,
    /// The syllable is whole, and the layout holds nothing now.
    Whole(Syllable),
    /// The key is the layout's and can't stand here.
    Refused,
    /// A part or a letter went.
    Erased,
    /// The key is none of the layout's here.
    NotMine,
}
