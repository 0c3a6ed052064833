ghost use Rattle.std.specs.Prelude.{◌≡◌, IsTrue};

use crate::key::Key;
use crate::phrase::Phrase;
use std::marker::Model;

/// The greatest frequency of a row.
pub const GREATEST_FREQ: u32 = 99_999_999;

/// The most rows of a system's dictionary.
pub const SYSTEM_ROWS_LIMIT: u32 = 250_000;

/// The most rows of a user's dictionary.
pub const USER_ROWS_LIMIT: u32 = 200_000;

/// A phrase under its key, with as many characters as the key has syllables.
#[derive(Debug, Drop)]
pub struct KeyRow {
    /// What the phrase is held under.
    pub key: Key,
    /// As many characters as the key has syllables.
    pub phrase: Phrase,
    /// At most 99,999,999.
    pub freq: u32,
    /// The life of the dictionary at the last learn; 0 in a system.
    pub time: u64,
}

impl Model for KeyRow {
    ghost use Rattle.std.specs.Prelude.{IsTrue};
    ghost use Rattle.chew_spec_syllable.specs.Row.{Row, is_row};

    ghost Value = { Row };

    ghost view = { λ row. record { key = row.key; phrase = row.phrase; freq = row.freq; time = row.time } };

    ghost invariant = { λ row. IsTrue (is_row (record { key = row.key; phrase = row.phrase; freq = row.freq; time = row.time })) };
}

impl KeyRow {
    /// The same row once more. It takes no memory.
    pub fn copy(&self) -> KeyRow
        ensures { result ≡ self.now }
    {
        KeyRow {
            key: self.key.copy(),
            phrase: self.phrase.copy(),
            freq: self.freq,
            time: self.time,
        }
    }
}
