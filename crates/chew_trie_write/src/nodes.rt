ghost use Rattle.std.specs.Prelude.{◌≡◌, ℕ, ◌+◌, ◌-◌, ◌<◌, ◌≤◌, ◌^◌, ◌++◌, List, [], ◌∷◌, OnOk, IsTrue, drop, length, flat_map};
ghost use Rattle.std.specs.List.{list_all, prefix_len};
ghost use Rattle.chew_spec_syllable.specs.Row.{is_row};
ghost use Rattle.chew_spec_dictionary.specs.Dictionary.{is_map};
ghost use Rattle.chew_spec_dictionary.specs.System.{is_under};
ghost use Rattle.chew_spec_image.specs.Fields.{node_bytes};
ghost use Rattle.chew_spec_image.specs.Image.{nodes_of};
ghost use Rattle.chew_spec_image.specs.NodeKeys.{is_child, last_code, node_keys};

use chew_syllable::{Key, KeyRow, NoMemory, Syllable};
use chew_trie_image::Node;

/// Whether a key is one syllable longer than another that it begins with.
fn is_child(parent: &[Syllable], key: &[Syllable]) -> bool
    ensures { result ≡ is_child parent.now key.now }
{
    if key.is_empty() {
        return false;
    }
    &key[..key.len() - 1] == parent
}

/// How many children of a key stand at the front of keys.
fn count_children(parent: &[Syllable], keys: &[Key]) -> usize
    ensures { result ≡ prefix_len (is_child parent.now) keys.now }
{
    let mut count = 0;
    for key in keys {
        if !is_child(parent, key.list()) {
            return count;
        }
        count += 1;
    }
    count
}

/// Whether a row is under a key.
fn is_under(key: &[Syllable], row: &KeyRow) -> bool
    ensures { result ≡ is_under key.now row.now }
{
    row.key.list() == key
}

/// How many rows of a key stand at the front of rows.
fn count_rows(key: &[Syllable], rows: &[KeyRow]) -> usize
    ensures { result ≡ prefix_len (is_under key.now) rows.now }
{
    let mut count = 0;
    for row in rows {
        if !is_under(key, row) {
            return count;
        }
        count += 1;
    }
    count
}

/// The last syllable's code; 0 where there is none.
fn last_code(key: &[Syllable]) -> u16
    ensures { result ≡ last_code key.now }
{
    if key.is_empty() {
        return 0;
    }
    key[key.len() - 1].code()
}

/// Where the next node's children and rows begin.
#[derive(Drop)]
struct Place {
    /// Among all nodes, so that it is 1 before node 0.
    child: usize,
    /// Among all rows.
    row: usize,
}

/// Writes the node of a key.
fn push_node(
    out: &mut Vec<u8>,
    key: &[Syllable],
    keys: &[Key],
    rows: &[KeyRow],
    at: &mut Place,
) -> Result<(), NoMemory>
    requires child { 1 ≤ at.old.child }
    requires keys { (at.old.child - 1) + prefix_len (is_child key.now) (drop (at.old.child - 1) keys.now) ≤ length keys.now }
    requires rows { at.old.row + prefix_len (is_under key.now) (drop at.old.row rows.now) ≤ length rows.now }
    requires children { prefix_len (is_child key.now) (drop (at.old.child - 1) keys.now) < 2 ^ 16 }
    requires few_keys { length keys.now + 1 < 2 ^ 32 }
    requires few_rows { length rows.now < 2 ^ 32 }
    ensures ok { OnOk result
        (out.new.items ≡ out.old.items
        ++ node_bytes (record {
          code = last_code key.now;
          children = prefix_len (is_child key.now) (drop (at.old.child - 1) keys.now);
          first_child = at.old.child;
          rows = prefix_len (is_under key.now) (drop at.old.row rows.now);
          first_row = at.old.row;
        })) }
    ensures child { OnOk result (at.new.child ≡ at.old.child + prefix_len (is_child key.now) (drop (at.old.child - 1) keys.now)) }
    ensures row { OnOk result (at.new.row ≡ at.old.row + prefix_len (is_under key.now) (drop at.old.row rows.now)) }
{
    let children = count_children(key, &keys[at.child - 1..]);
    let own = count_rows(key, &rows[at.row..]);
    let node = Node {
        code: last_code(key),
        children: children as u16,
        first_child: at.child as u32,
        rows: own as u32,
        first_row: at.row as u32,
    };
    out.extend_from_slice(&node.bytes())?;
    at.child += children;
    at.row += own;
    Ok(())
}

/// Writes the nodes, of which keys has the keys but for the empty one.
pub(crate) fn push_nodes(out: &mut Vec<u8>, keys: &[Key], rows: &[KeyRow]) -> Result<(), NoMemory>
    requires keys { [] ∷ keys.now ≡ node_keys rows.now }
    requires map { IsTrue (is_map rows.now) }
    requires each { IsTrue (list_all is_row rows.now) }
    requires few { length rows.now ≤ 250_000 }
    ensures { OnOk result (out.new.items ≡ out.old.items ++ flat_map node_bytes (nodes_of rows.now)) }
{
    let mut at = Place { child: 1, row: 0 };
    push_node(out, &[], keys, rows, &mut at)?;
    for key in keys {
        push_node(out, key.list(), keys, rows, &mut at)?;
    }
    Ok(())
}
