ghost use Rattle.std.specs.Prelude.{◌≡◌, ◌<◌, ◌≤◌, IsTrue, false, length};
ghost use Rattle.chew_spec_preedit.specs.Edit.{backspaced, deleted, emptied, inserted, is_full, moved_to, released};
ghost use Rattle.chew_preedit.specs.CellItem.{cell_of, is_printable_item};

use crate::cell_item::{CellItem, cells_behind, item_is_cell};
use crate::kept::Kept;
use crate::preedit::Preedit;
use crate::splice::Splice;
use arrayvec::ArrayVec;

impl Preedit {
    /// Puts an item in at the cursor, which moves past it. A break there goes, and so does a choice that has the place
    /// strictly inside.
    pub fn insert(&mut self, item: CellItem)
        requires room { is_full self.old ≡ false }
        requires item { IsTrue (is_printable_item item) }
        ensures { self.new ≡ inserted self.old (cell_of item) }
    {
        item_is_cell(&item);
        let splice = Splice {
            from: self.cursor,
            removed: 0,
            added: 1,
        };
        let Kept { breaks, choices } = self.kept(splice);
        self.cells.insert(usize::from(self.cursor), item);
        self.cursor += 1;
        self.breaks = breaks;
        self.choices = choices;
    }

    /// Takes the cell at the cursor out. The breaks on its two sides go, and so does a choice that covers it.
    pub fn delete(&mut self)
        requires { self.old.cursor < length self.old.cells }
        ensures { self.new ≡ deleted self.old }
    {
        let splice = Splice {
            from: self.cursor,
            removed: 1,
            added: 0,
        };
        let Kept { breaks, choices } = self.kept(splice);
        let _cell = self.cells.remove(usize::from(self.cursor));
        self.breaks = breaks;
        self.choices = choices;
    }

    /// Takes the cell before the cursor out, which moves back by one. The breaks on the cell's two sides go, and so does
    /// a choice that covers it.
    pub fn backspace(&mut self)
        requires { 0 < self.old.cursor }
        ensures { self.new ≡ backspaced self.old }
    {
        let place = self.cursor - 1;
        let splice = Splice {
            from: place,
            removed: 1,
            added: 0,
        };
        let Kept { breaks, choices } = self.kept(splice);
        let _cell = self.cells.remove(usize::from(place));
        self.cursor = place;
        self.breaks = breaks;
        self.choices = choices;
    }

    /// Takes the first cells out, at most all. The breaks up to their end go, and so do the choices that have one of
    /// them. The cursor moves along, and not below 0.
    pub fn release(&mut self, count: u8)
        requires { count ≤ length self.old.cells }
        ensures { self.new ≡ released count self.old }
    {
        let splice = Splice {
            from: 0,
            removed: count,
            added: 0,
        };
        let Kept { breaks, choices } = self.kept(splice);
        let cells = cells_behind(self.cells.as_slice(), count);
        self.cells = cells;
        self.cursor = self.cursor.saturating_sub(count);
        self.breaks = breaks;
        self.choices = choices;
    }

    /// Moves the cursor to a place, at most the number of cells.
    pub fn move_to(&mut self, at: u8)
        requires { at ≤ length self.old.cells }
        ensures { self.new ≡ moved_to at self.old }
    {
        self.cursor = at;
    }

    /// Leaves nothing in the buffer.
    pub fn empty(&mut self)
        ensures { self.new ≡ emptied self.old }
    {
        self.cells = ArrayVec::new();
        self.cursor = 0;
        self.breaks = ArrayVec::new();
        self.choices = ArrayVec::new();
    }
}
