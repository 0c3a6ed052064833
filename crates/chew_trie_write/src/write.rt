ghost use Rattle.std.specs.Prelude.{◌≡◌, ◌≤◌, ◌++◌, [], ◌∷◌, IfOk, None, OnOk, IsTrue, flat_map, length};
ghost use Rattle.std.specs.List.{list_all};
ghost use Rattle.chew_spec_syllable.specs.Row.{is_row};
ghost use Rattle.chew_spec_dictionary.specs.Dictionary.{is_map};
ghost use Rattle.chew_spec_image.specs.Fields.{header_bytes, node_bytes, row_bytes};
ghost use Rattle.chew_spec_image.specs.Image.{counts_of, fields_from, image, nodes_of, text_of};
ghost use Rattle.chew_spec_image.specs.NodeKeys.{node_keys};
ghost use Rattle.chew_spec_image.specs.Reading.{image_place, rows_in};

use crate::keys::node_keys;
use crate::nodes::push_nodes;
use crate::rows::{all_are_rows, all_have_times, push_rows, push_text, text_len};
use chew_syllable::{Key, KeyRow, NoMemory};
use chew_trie_image::Counts;
use std::alloc::Global;

/// How many rows, nodes and bytes of text there are, where keys has the nodes' keys but for the empty one.
fn counts_of(keys: &[Key], rows: &[KeyRow]) -> Counts
    requires keys { [] ∷ keys.now ≡ node_keys rows.now }
    requires each { IsTrue (list_all is_row rows.now) }
    requires few { length rows.now ≤ 250_000 }
    ensures { result ≡ counts_of rows.now }
{
    Counts {
        rows: rows.len() as u32,
        nodes: keys.len() as u32 + 1,
        text: text_len(rows),
    }
}

/// Begins an image, with room for all of it.
fn with_header(alloc: Global, counts: &Counts) -> Result<Vec<u8>, NoMemory>
    ensures { IfOk result (λ out. out.items ≡ header_bytes counts.now) }
{
    let mut out = Vec::new(alloc);
    out.reserve_exact(counts.image_end())?;
    out.extend_from_slice(&counts.bytes())?;
    Ok(out)
}

/// Writes what follows the header.
fn push_parts(out: &mut Vec<u8>, keys: &[Key], rows: &[KeyRow]) -> Result<(), NoMemory>
    requires keys { [] ∷ keys.now ≡ node_keys rows.now }
    requires map { IsTrue (is_map rows.now) }
    requires each { IsTrue (list_all is_row rows.now) }
    requires few { length rows.now ≤ 250_000 }
    ensures { OnOk result (out.new.items
        ≡ out.old.items ++ (flat_map node_bytes (nodes_of rows.now) ++ (flat_map row_bytes (fields_from 0 rows.now) ++ text_of rows.now))) }
{
    push_nodes(out, keys, rows)?;
    push_rows(out, rows)?;
    push_text(out, rows)?;
    Ok(())
}

#[tactic(auto, unfolding(chew_spec_image::specs::Image::image))]
/// The bytes of all parts. Room for them is made once.
fn image_of(alloc: Global, rows: &[KeyRow]) -> Result<Vec<u8>, NoMemory>
    requires map { IsTrue (is_map rows.now) }
    requires each { IsTrue (list_all is_row rows.now) }
    requires few { length rows.now ≤ 250_000 }
    ensures { IfOk result (λ bytes. bytes.items ≡ image rows.now) }
{
    let keys = node_keys(alloc, rows)?;
    let counts = counts_of(keys.as_slice(), rows);
    let mut out = with_header(alloc, &counts)?;
    push_parts(&mut out, keys.as_slice(), rows)?;
    Ok(out)
}

/// The image of rows in image order, no pair twice, at most 250,000 of them. It reads as these rows. Room for it is made
/// once.
pub fn write_image(alloc: Global, rows: &[KeyRow]) -> Result<Vec<u8>, NoMemory>
    requires map { IsTrue (is_map rows.now) }
    requires few { length rows.now ≤ 250_000 }
    ensures image { IfOk result (λ bytes. bytes.items ≡ image rows.now) }
    ensures rows { IfOk result (λ bytes. rows_in bytes.items ≡ rows.now) }
    ensures whole { IfOk result (λ bytes. image_place bytes.items ≡ None) }
{
    all_are_rows(rows);
    all_have_times(rows);
    let bytes = image_of(alloc, rows)?;
    Ok(bytes)
}
