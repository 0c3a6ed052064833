//! A map of three rows under a layer of four marks, with the rows that it has then.

ghost use Rattle.std.specs.Prelude.{◌≡◌, ◌≤◌, IsTrue};
ghost use Rattle.chew_spec_syllable.specs.Syllable.{is_code};

use crate::new_base::merge_layer;
use chew_buffer::Buffer;
use chew_samples::{CE, SHI, row, syllable};
use chew_syllable::Syllable;
use chew_trie_read::Trie;
use chew_trie_write::write_image;
use std::alloc::Global;
use std::test::Fail;

/// Marks a pair as held.
fn put(layer: &mut Buffer, key: &[Syllable], text: &str, freq: u32, time: u64) -> Result<(), Fail>
    requires { freq ≤ 99_999_999 }
{
    match row(key, text, freq) {
        Some(row) => Ok(layer.put(&row.key, &row.phrase, row.freq, time)?),
        None => Err(Fail::new("no row")),
    }
}

/// Marks a pair as gone.
fn bury(layer: &mut Buffer, key: &[Syllable], text: &str) -> Result<(), Fail> {
    match row(key, text, 0) {
        Some(row) => Ok(layer.bury(&row.key, &row.phrase)?),
        None => Err(Fail::new("no row")),
    }
}

/// A map of no rows.
fn empty_map(alloc: Global) -> Result<Trie, Fail> {
    match Trie::of(write_image(alloc, &[])?) {
        Ok(trie) => Ok(trie),
        Err(_) => Err(Fail::new("no image")),
    }
}

/// A small layer merged into a small map.
fn merged(alloc: Global, base: &Trie, layer: &Buffer) -> Result<Trie, Fail> {
    if layer.len() > 4 || base.total() > 4 {
        return Err(Fail::new("too many"));
    }
    Ok(merge_layer(alloc, base, layer)?)
}

/// 測 with 10, 策 with 20 and 是 with 30.
fn three_rows(alloc: Global) -> Result<Trie, Fail> {
    let mut layer = Buffer::new(alloc);
    put(&mut layer, &[syllable(CE)], "策", 20, 2)?;
    put(&mut layer, &[syllable(SHI)], "是", 30, 3)?;
    put(&mut layer, &[syllable(CE)], "測", 10, 1)?;
    merged(alloc, &empty_map(alloc)?, &layer)
}

/// 測 has a newer frequency, 策 goes, 試 is new, and 測試 was not there.
fn four_marks(alloc: Global) -> Result<Buffer, Fail> {
    let mut layer = Buffer::new(alloc);
    bury(&mut layer, &[syllable(CE), syllable(SHI)], "測試")?;
    bury(&mut layer, &[syllable(CE)], "策")?;
    put(&mut layer, &[syllable(SHI)], "試", 5, 6)?;
    put(&mut layer, &[syllable(CE)], "測", 12, 7)?;
    Ok(layer)
}

/// Whether these are all rows of a map, in image order.
fn has_rows(map: &Trie, wanted: &[(&str, u32, u64)]) -> bool {
    let mut rows = map.each();
    for (phrase, freq, time) in wanted {
        match rows.next() {
            Some((_, row)) => {
                if row.phrase != *phrase || row.freq != *freq || row.time != *time {
                    return false;
                }
            }
            None => return false,
        }
    }
    rows.next().is_none()
}

#[test]
fn a_layer_is_merged_into_a_map(rt: HostRuntime) -> Result<(), Fail> {
    let alloc = rt.alloc();
    let base = three_rows(alloc)?;
    assert!(rt; has_rows(&base, &[("是", 30, 3), ("測", 10, 1), ("策", 20, 2)]));
    let layer = four_marks(alloc)?;
    let map = merged(alloc, &base, &layer)?;
    assert!(rt; has_rows(&map, &[("是", 30, 3), ("試", 5, 6), ("測", 12, 7)]));
    assert!(rt;
        has_rows(
            &merged(alloc, &base, &Buffer::new(alloc))?,
            &[("是", 30, 3), ("測", 10, 1), ("策", 20, 2)]
        )
    );
    Ok(())
}
