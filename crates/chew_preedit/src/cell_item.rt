ghost use Rattle.std.specs.Prelude.{◌≡◌, ◌-◌, ◌≤◌, IsTrue, drop, length, map, take};
ghost use Rattle.std.specs.List.{list_all};
ghost use Rattle.chew_spec_preedit.specs.Cell.{has_sound, is_cell, is_sound};
ghost use Rattle.chew_preedit.specs.CellItem.{cell_of, is_printable_item};

use crate::splice::CELL_LIMIT;
use arrayvec::ArrayVec;
use chew_syllable::{Syllable, array_of};

/// What a cell of the buffer holds.
#[derive(Clone, Copy, Debug, PartialEq, Eq)]
pub enum CellItem {
    /// A syllable, which is shown by a character of a phrase.
    Sound(Syllable),
    /// A printable ASCII byte, which is shown as it is.
    Symbol(u8),
}

impl Default for CellItem {
    ghost use Rattle.chew_preedit.specs.declared.cell_item.CellItem.TheVariants as items;

    ghost is_default = { λ item. item ≡ items.Symbol 32 };

    /// A space, since some item has to fill unused places.
    fn default() -> Self {
        CellItem::Symbol(b' ')
    }
}

/// What every cell keeps holds of the item. It does nothing, and is there for proofs alone.
pub(crate) fn item_is_cell(item: &CellItem)
    requires { IsTrue (is_printable_item item.now) }
    ensures { IsTrue (is_cell (cell_of item.now)) }
{
    if let CellItem::Sound(syllable) = item {
        let _code = syllable.code();
    }
}

/// Whether the cells from a place up to another are all syllables.
pub(crate) fn are_sounds(cells: &[CellItem], start: usize, end: usize) -> bool
    requires from { start ≤ end }
    requires to { end ≤ length cells.now }
    ensures { result ≡ list_all is_sound (take (end - start) (drop start (map cell_of cells.now))) }
{
    all_are_sounds(&cells[start..end])
}

/// Whether all of the cells are syllables.
fn all_are_sounds(cells: &[CellItem]) -> bool
    ensures { result ≡ list_all (λ cell. is_sound (cell_of cell)) cells.now }
{
    cells.iter().all(|cell| is_sound(cell))
}

/// Whether the cell is a syllable.
fn is_sound(cell: &CellItem) -> bool
    ensures { result ≡ is_sound (cell_of cell.now) }
{
    match cell {
        CellItem::Sound(_) => true,
        CellItem::Symbol(_) => false,
    }
}

/// Whether there is a syllable at the place.
pub(crate) fn is_sound_at(cells: &[CellItem], place: usize) -> bool
    ensures { result ≡ has_sound (map cell_of cells.now) place }
{
    match cells.get(place) {
        Some(CellItem::Sound(_)) => true,
        _ => false,
    }
}

/// The cells behind the first of them.
pub(crate) fn cells_behind(cells: &[CellItem], count: u8) -> ArrayVec<CellItem, CELL_LIMIT>
    requires within { count ≤ length cells.now }
    requires few { length cells.now ≤ 39 }
    ensures { result.items ≡ drop count cells.now }
{
    array_of(&cells[usize::from(count)..])
}
