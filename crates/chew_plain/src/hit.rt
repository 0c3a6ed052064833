ghost use Rattle.std.specs.Prelude.{◌≡◌};

use chew_syllable::Phrase;
use std::marker::Model;

/// A row that a look found for an interval of its run.
#[derive(Debug, Drop)]
pub struct Hit {
    /// The place in the run of the interval's first syllable.
    pub start: u8,
    /// How many syllables the interval has, 1 to 11.
    pub len: u8,
    /// As many characters as the interval has syllables.
    pub phrase: Phrase,
    /// At most 99,999,999.
    pub freq: u32,
    /// Whether the user hid it.
    pub hidden: bool,
}

impl Model for Hit {
    ghost use Rattle.std.specs.Prelude.{IsTrue};
    ghost use Rattle.chew_spec_dictionary.specs.Call.{Hit as Found, is_hit};

    ghost Value = { Found };

    ghost view = { λ hit. record { start = hit.start; len = hit.len; phrase = hit.phrase; freq = hit.freq; hidden = hit.hidden } };

    ghost invariant = { λ hit. IsTrue (is_hit (record { start = hit.start; len = hit.len; phrase = hit.phrase; freq = hit.freq; hidden = hit.hidden })) };
}

impl Hit {
    /// The same hit once more. It takes no memory.
    pub fn copy(&self) -> Hit
        ensures { result ≡ self.now }
    {
        Hit {
            start: self.start,
            len: self.len,
            phrase: self.phrase.copy(),
            freq: self.freq,
            hidden: self.hidden,
        }
    }
}
