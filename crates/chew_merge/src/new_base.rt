ghost use Rattle.std.specs.Prelude.{◌≡◌, ◌≤◌, IfOk, IsTrue, None, OnOk, length};
ghost use Rattle.chew_spec_dictionary.specs.Dictionary.{is_map};
ghost use Rattle.chew_spec_image.specs.Reading.{image_place, rows_in};
ghost use Rattle.chew_spec_layers.specs.Overlay.{overlay};

use crate::overlaid::Overlaid;
use chew_buffer::Buffer;
use chew_syllable::{KeyRow, NoMemory, USER_ROWS_LIMIT};
use chew_trie_read::Trie;
use chew_trie_write::write_image;
use std::alloc::Global;
use std::cmp::min;

/// Room for the rows of a map under a layer of marks.
fn room_for(base: &Trie, layer: &Buffer) -> usize
    requires few { length (overlay base.now layer.now) ≤ 200_000 }
    ensures { length (overlay base.now layer.now) ≤ result }
{
    min(
        base.total() as usize + layer.len(),
        USER_ROWS_LIMIT as usize,
    )
}

/// The rows of a map under a layer of marks. Room for them is made once.
fn rows_together(alloc: Global, base: &Trie, layer: &Buffer) -> Result<Vec<KeyRow>, NoMemory>
    requires few { length (overlay base.now layer.now) ≤ 200_000 }
    ensures rows { IfOk result (λ rows. rows.items ≡ overlay base.now layer.now) }
    ensures map { OnOk result (IsTrue (is_map (overlay base.now layer.now))) }
{
    let mut rows = Vec::with_capacity(alloc, room_for(base, layer))?;
    for row in Overlaid::of(base, layer) {
        rows.push_reserved(row);
    }
    Ok(rows)
}

/// A new map: the rows of the base whose pair has no mark, and those of the live marks.
pub(crate) fn merge_layer(alloc: Global, base: &Trie, layer: &Buffer) -> Result<Trie, NoMemory>
    requires few { length (overlay base.now layer.now) ≤ 200_000 }
    ensures { IfOk result (λ trie. trie ≡ overlay base.now layer.now) }
{
    let rows = rows_together(alloc, base, layer)?;
    let bytes = write_image(alloc, rows.as_slice())?;
    Ok(Trie::of_image(bytes))
}
