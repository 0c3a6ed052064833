//! Small maps, as images.

ghost use Rattle.std.specs.Prelude.{◌≡◌, ◌≤◌, [], IfOk, IsTrue, None, length};
ghost use Rattle.std.specs.Arc.{arc_value};
ghost use Rattle.chew_spec_syllable.specs.Row.{image_cmp};
ghost use Rattle.chew_spec_dictionary.specs.Dictionary.{is_map};
ghost use Rattle.chew_spec_dictionary.specs.FiveRows.{five_rows};
ghost use Rattle.chew_spec_dictionary.specs.Order.{in_order};
ghost use Rattle.chew_spec_image.specs.Reading.{image_place, rows_in};

use chew_plain::sort_rows;
use chew_samples::five;
use chew_syllable::{KeyRow, NoMemory};
use chew_trie_read::Trie;
use chew_trie_write::write_image;
use std::alloc::Global;
use std::sync::Arc;

/// The map of rows in image order.
pub fn map_of(alloc: Global, rows: &[KeyRow]) -> Result<Arc<Trie>, NoMemory>
    requires map { IsTrue (is_map rows.now) }
    requires few { length rows.now ≤ 250_000 }
    ensures { IfOk result (λ map. arc_value map ≡ rows.now) }
{
    let bytes = write_image(alloc, rows)?;
    Ok(Arc::new(alloc, Trie::of_image(bytes))?)
}

/// The map of no rows.
pub fn empty_map(alloc: Global) -> Result<Arc<Trie>, NoMemory>
    ensures { IfOk result (λ map. arc_value map ≡ []) }
{
    map_of(alloc, &[])
}

/// The five rows of the samples, in image order.
#[tactic(auto, using(chew_spec_dictionary::proofs::Once::map_of_rows))]
fn five_in_order(alloc: Global) -> Result<Vec<KeyRow>, NoMemory>
    ensures rows { IfOk result (λ rows. rows.items ≡ in_order image_cmp five_rows) }
    ensures map { IfOk result (λ rows. IsTrue (is_map rows.items)) }
    ensures five { IfOk result (λ rows. length rows.items ≡ 5) }
{
    let mut rows = five(alloc)?;
    sort_rows(&mut rows)?;
    Ok(rows)
}

/// The map of the five rows of the samples.
pub fn five_map(alloc: Global) -> Result<Arc<Trie>, NoMemory>
    ensures rows { IfOk result (λ map. arc_value map ≡ in_order image_cmp five_rows) }
    ensures five { IfOk result (λ map. length (arc_value map) ≡ 5) }
{
    let rows = five_in_order(alloc)?;
    map_of(alloc, rows.as_slice())
}
