ghost use Rattle.std.specs.Prelude.{◌≡◌, length};
ghost use Rattle.chew_spec_layout.specs.Table.{columns_of};
ghost use Rattle.chew_syllable.specs.Columns.{columns_in};
ghost use Rattle.chew_layout_table.specs.Tables.{table_of};

use chew_syllable::Columns;

/// A layout in which each key is one part of a syllable.
#[derive(Clone, Copy, Debug, PartialEq, Eq)]
pub enum Table {
    /// The default layout.
    Standard,
    /// The Eten layout.
    Eten,
}

impl Table {
    /// The keys of the layout.
    pub(crate) fn columns(self) -> Columns
        ensures value { columns_in result ≡ columns_of (table_of self) }
        ensures initials { length result.initials.now ≡ 21 }
        ensures medials { length result.medials.now ≡ 3 }
        ensures finals { length result.finals.now ≡ 13 }
        ensures tones { length result.tones.now ≡ 4 }
    {
        match self {
            Table::Standard => Columns {
                initials: b"1qaz2wsxedcrfv5tgbyhn",
                medials: b"ujm",
                finals: b"8ik,9ol.0p;/-",
                tones: b"7634",
            },
            Table::Eten => Columns {
                initials: b"bpmfdtnlvkhg7c,./j;'s",
                medials: b"exu",
                finals: b"aorwiqzy890-=",
                tones: b"1234",
            },
        }
    }
}
