ghost use Rattle.std.specs.Prelude.{◌≡◌, ◌++◌, [], ◌∷◌, ◌*◌, ◌+◌, ◌≤◌, IfOk, OnOk, flat_map, length, take, IsPermutation, IsSorted, bytes_eq, if◌then◌else◌};
ghost use Rattle.chew_spec_image.specs.NodeKeys.{key_cmp, node_keys, prefixes_of};
ghost use Rattle.chew_trie_write.specs.Unlike.{unlike};

use chew_syllable::{Key, KeyRow, NoMemory, Syllable};
use std::alloc::Global;
use std::cmp::Ordering;

/// How two keys stand in the order of nodes: by length, then by the syllables' codes.
fn key_order(key: &[Syllable], other: &[Syllable]) -> Ordering
    ensures { result ≡ key_cmp key.now other.now }
{
    match key.len().cmp(&other.len()) {
        Ordering::Equal => key.cmp(other),
        unequal => unequal,
    }
}

/// How many syllables a key has.
fn key_len(key: &Key) -> usize
    ensures value { result ≡ length key.now }
    ensures few { result ≤ 11 }
{
    key.list().len()
}

/// The first syllables of a key.
fn prefix(key: &Key, len: usize) -> Key
    requires some { 1 ≤ len }
    requires within { len ≤ length key.now }
    ensures { result ≡ take len key.now }
{
    Key::of_some(&key.list()[..len])
}

/// Adds the prefixes of a key, but for the empty one.
fn push_prefixes(keys: &mut Vec<Key>, key: &Key) -> Result<(), NoMemory>
    ensures ok { OnOk result (keys.new.items ≡ keys.old.items ++ prefixes_of key.now) }
    ensures few { OnOk result (length keys.new.items ≤ length keys.old.items + 11) }
{
    for n in 0..key_len(key) {
        keys.push(prefix(key, n + 1))?;
    }
    Ok(())
}

/// The prefixes of all keys, row by row.
fn all_prefixes(alloc: Global, rows: &[KeyRow]) -> Result<Vec<Key>, NoMemory>
    ensures ok { IfOk result (λ keys. keys.items ≡ flat_map (λ row. prefixes_of row.key) rows.now) }
    ensures few { IfOk result (λ keys. length keys.items ≤ 11 * length rows.now) }
{
    let mut keys = Vec::new(alloc);
    for row in rows {
        push_prefixes(&mut keys, &row.key)?;
    }
    Ok(keys)
}

/// Puts keys in the order of nodes.
fn sort_keys(keys: &mut Vec<Key>) -> Result<(), NoMemory>
    ensures sorted { OnOk result (IsSorted key_cmp keys.new.items) }
    ensures same { OnOk result (IsPermutation keys.old.items keys.new.items) }
    ensures len { length keys.new.items ≡ length keys.old.items }
{
    keys.sort_by(|key, other| key_order(key.list(), other.list()))?;
    Ok(())
}

/// Adds a key, unless it is the last one.
fn push_unlike(kept: &mut Vec<Key>, last: &[Syllable], key: &Key) -> Result<(), NoMemory>
    ensures { OnOk result (kept.new.items ≡ (if bytes_eq key.now last.now then kept.old.items else kept.old.items ++ key.now ∷ [])) }
{
    if key.list() != last {
        kept.push(key.copy())?;
    }
    Ok(())
}

/// The keys that differ from the one before them.
fn distinct(alloc: Global, keys: &[Key]) -> Result<Vec<Key>, NoMemory>
    ensures ok { IfOk result (λ kept. kept.items ≡ unlike [] keys.now) }
    ensures few { IfOk result (λ kept. length kept.items ≤ length keys.now) }
{
    let mut kept = Vec::new(alloc);
    let mut last: &[Syllable] = &[];
    for key in keys {
        push_unlike(&mut kept, last, key)?;
        last = key.list();
    }
    Ok(kept)
}

/// The keys of the nodes of rows, in their order, but for the empty one of node 0.
pub(crate) fn node_keys(alloc: Global, rows: &[KeyRow]) -> Result<Vec<Key>, NoMemory>
    ensures ok { IfOk result (λ keys. [] ∷ keys.items ≡ node_keys rows.now) }
    ensures few { IfOk result (λ keys. length keys.items ≤ 11 * length rows.now) }
{
    let mut keys = all_prefixes(alloc, rows)?;
    sort_keys(&mut keys)?;
    let kept = distinct(alloc, keys.as_slice())?;
    Ok(kept)
}
