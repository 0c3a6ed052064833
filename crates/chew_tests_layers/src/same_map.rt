//! Whether the map of the snapshot that waits is the plain map.

ghost use Rattle.std.specs.Prelude.{◌≤◌};

use crate::both::Both;
use crate::plainly::Plainly;
use chew_layer_samples::{InLayers, look};
use chew_plain::{Hit, Reply, RowRef};
use chew_syllable::Key;
use chew_trie_read::Trie;
use std::alloc::Global;
use std::test::Fail;

/// Whether a hit of a whole key tells of this row.
fn is_told(hit: &Hit, len: usize, row: &RowRef<'_>) -> bool {
    let hidden = len > 1 && row.time == u64::MAX;
    (hit.start, hit.len as usize, hit.freq, hit.hidden) == (0, len, row.freq, hidden)
        && hit.phrase.text() == row.phrase
}

/// Whether the plain map holds this row of a key.
fn holds(plain: &mut Plainly, key: &Key, row: &RowRef<'_>) -> Result<bool, Fail> {
    let Some(call) = look(key.list()) else {
        return Err(Fail::new("no run"));
    };
    match plain.make(&call)? {
        Reply::Rows(hits) => Ok(hits.list().iter().any(|hit| is_told(hit, key.len(), row))),
        _ => Ok(false),
    }
}

/// Whether a map has the rows of the plain map.
fn has_all_of(map: &Trie, plain: &mut Plainly) -> Result<bool, Fail> {
    for (key, row) in map.each() {
        if !holds(plain, &key, &row)? {
            return Ok(false);
        }
    }
    Ok(map.total() == plain.pairs())
}

/// Whether the map of the snapshot that waits has the rows of the plain map, with its life. Layers over that map alone take
/// the place of the layers.
pub(crate) fn begin_anew(alloc: Global, both: &mut Both, cap: u32) -> Result<bool, Fail>
    requires { cap ≤ 200_000 }
{
    let life = both.plain.life();
    if both.layers.waiting_life() != Some(life) {
        return Ok(false);
    }
    let Some(map) = both.layers.merged()? else {
        return Ok(false);
    };
    if !has_all_of(&map, &mut both.plain)? {
        return Ok(false);
    }
    both.layers = InLayers::over(alloc, map, life, cap);
    Ok(true)
}
