ghost use Rattle.std.specs.Prelude.{◌≡◌, IsTrue};
ghost use Rattle.chew_spec_layout.specs.Table.{is_held, fed, columns_of, holds_something, nothing_held};
ghost use Rattle.chew_spec_syllable.specs.SyllableText.{text_of};
ghost use Rattle.chew_syllable.specs.Step.{step_of};
ghost use Rattle.chew_layout_table.specs.Tables.{table_of};

use crate::columns::Table;
use crate::turn::{NOTHING, fed, holds_something};
use arrayvec::ArrayString;
use chew_syllable::{Parts, Step, string_of};
use std::marker::Model;

/// The default layout or Eten, with at most one initial, one medial and one final that were typed.
#[derive(Debug, Drop)]
pub struct Direct {
    table: Table,
    held: Parts,
}

impl Model for Direct {
    ghost use Rattle.std.specs.Prelude.{IsTrue};
    ghost use Rattle.chew_spec_layout.specs.Table.{is_held, Direct as Held};
    ghost use Rattle.chew_layout_table.specs.Tables.{table_of};

    ghost Value = { Held };

    ghost view = { λ a. record { table = table_of a.table; held = a.held } };

    ghost invariant = { λ a. IsTrue (is_held a.held) };
}

impl Direct {
    /// A layout that holds nothing.
    pub fn of(table: Table) -> Direct
        ensures { result ≡ record { table = table_of table; held = nothing_held } }
    {
        Direct {
            table,
            held: NOTHING,
        }
    }

    /// Takes a key, given as its character in ASCII, or 8 for Backspace.
    pub fn feed(&mut self, key: u8) -> Step
        ensures step { step_of result ≡ (fed (columns_of self.old.table) self.old.held key).step }
        ensures held { self.new ≡ record self.old { held = (fed (columns_of self.old.table) self.old.held key).held } }
        ensures valid { IsTrue (is_held self.new.held) }
    {
        let turn = fed(self.table, self.held, key);
        self.held = turn.held;
        turn.step
    }

    /// Lets go of what it holds.
    pub fn clear(&mut self)
        ensures { self.new ≡ record self.old { held = nothing_held } }
    {
        self.held = NOTHING;
    }

    /// Whether it holds a part.
    pub fn holds(&self) -> bool
        ensures value { result ≡ holds_something self.now.held }
        ensures valid { IsTrue (is_held self.now.held) }
    {
        holds_something(self.held)
    }

    /// The marks of the parts that it holds, in UTF-8.
    pub fn shown(&self) -> ArrayString<12>
        ensures { result.bytes ≡ text_of self.now.held }
    {
        string_of(self.held.text().as_str())
    }

    /// The same layout once more. It takes no memory.
    pub fn copy(&self) -> Direct
        ensures { result ≡ self.now }
    {
        Direct {
            table: self.table,
            held: self.held,
        }
    }
}
