ghost use Rattle.std.specs.Prelude.{◌≡◌, length};
ghost use Rattle.chew_spec_layout.specs.Letters.{letter_columns};
ghost use Rattle.chew_syllable.specs.Columns.{columns_in};
ghost use Rattle.chew_layout_26.specs.Kinds.{kind_of};

use chew_syllable::Columns;

/// A layout in which each key is a letter, and a letter may stand for several parts of a syllable or for a tone.
#[derive(Clone, Copy, Debug, PartialEq, Eq)]
pub enum Letters {
    /// The layout Hsu.
    Hsu,
    /// The layout ET26.
    Et26,
}

impl Letters {
    /// The letters of the layout.
    pub(crate) fn columns(self) -> Columns
        ensures value { columns_in result ≡ letter_columns (kind_of self) }
        ensures initials { length result.initials.now ≡ 21 }
        ensures medials { length result.medials.now ≡ 3 }
        ensures finals { length result.finals.now ≡ 13 }
        ensures tones { length result.tones.now ≡ 4 }
    {
        match self {
            Letters::Hsu => Columns {
                initials: b"bpmfdtnlgkhjvcjvcrzas",
                medials: b"exu",
                finals: b"yhgeiawomnkll",
                tones: b"sdfj",
            },
            Letters::Et26 => Columns {
                initials: b"bpmfdtnlvkhgvcgycjqws",
                medials: b"exu",
                finals: b"aorwiqzpmntlh",
                tones: b"dfjk",
            },
        }
    }
}
