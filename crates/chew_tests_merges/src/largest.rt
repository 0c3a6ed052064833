//! The most pairs of a user's dictionary, 200,000: in the base and in the layer above it, and all in one layer, which is saved.

use crate::replies::{is_full, is_learned, is_one_hit};
use crate::saved_snapshot::disk_with;
use crate::steps::{Step, are_answered, look_up, reply_to};
use chew_layer_samples::{InLayers, learn};
use chew_outside::MemDisk;
use chew_plain::{Lexicon, Reply};
use chew_slots::{Found, recover};
use chew_syllable::Syllable;
use chew_trie_read::Trie;
use std::alloc::Global;
use std::process::Abort;
use std::test::Fail;

/// The most pairs of a user's dictionary.
const MOST: u32 = 200_000;

/// Half of them.
const HALF: u32 = 100_000;

/// How far the number of the next pair is from that of the one before it. It has no factor of `MOST`, so that each number
/// comes once.
const STEP: u32 = 11_111;

/// Of so many pairs one is looked up. It is odd, so that they are of both halves.
const SPREAD: u32 = 1999;

/// The first 500 syllables by rising code.
fn syllables(alloc: Global) -> Result<Vec<Syllable>, Fail> {
    let mut found = Vec::new(alloc);
    for code in 0..u16::MAX {
        if found.len() < 500 {
            if let Some(syllable) = Syllable::from_code(code) {
                found.push(syllable)?;
            }
        }
    }
    Ok(found)
}

/// The number of the pair that is learnt after so many others.
fn number_at(place: u32) -> u32 {
    place.wrapping_mul(STEP) % MOST
}

/// The key of the pair of a number: the syllables at number / 500 and at number mod 500. Its phrase is 測試.
fn key_of(syllables: &[Syllable], number: u32) -> Result<[Syllable; 2], Fail> {
    let Some(first) = syllables.get((number / 500) as usize) else {
        return Err(Fail::new("no syllable"));
    };
    let Some(second) = syllables.get((number % 500) as usize) else {
        return Err(Fail::new("no syllable"));
    };
    Ok([*first, *second])
}

/// The frequency of the pair of a number.
fn freq_of(number: u32) -> u32 {
    number.saturating_add(1)
}

/// What the layers reply to a learn of the pair of a number, which is new.
fn learn_pair(layers: &mut InLayers, syllables: &[Syllable], number: u32) -> Result<Reply, Fail> {
    let key = key_of(syllables, number)?;
    let freq = freq_of(number);
    reply_to(layers, learn(&key, "測試", freq, freq))
}

/// Whether the pair that comes after so many others is added.
fn is_added(layers: &mut InLayers, syllables: &[Syllable], place: u32) -> Result<bool, Fail> {
    let number = number_at(place);
    let reply = learn_pair(layers, syllables, number)?;
    Ok(is_learned(&reply, (freq_of(number), u64::from(place))))
}

/// Adds the pairs from one place to another. The first that isn't added.
fn first_not_added(
    layers: &mut InLayers,
    syllables: &[Syllable],
    from: u32,
    to: u32,
) -> Result<Option<u32>, Fail> {
    for place in from..to {
        if !is_added(layers, syllables, place)? {
            return Ok(Some(place));
        }
    }
    Ok(None)
}

/// Whether a pair more is not added, because the dictionary is full.
fn is_one_too_many(layers: &mut InLayers, syllables: &[Syllable]) -> Result<bool, Fail> {
    Ok(is_full(&learn_pair(layers, syllables, MOST)?))
}

/// Whether the pair of a number is found.
fn is_found(layers: &mut InLayers, syllables: &[Syllable], number: u32) -> Result<bool, Fail> {
    let key = key_of(syllables, number)?;
    let reply = look_up(layers, &key)?;
    Ok(is_one_hit(&reply, 2, "測試", freq_of(number)))
}

/// The first number, of those that are spread over all, whose pair isn't found.
fn first_not_found(layers: &mut InLayers, syllables: &[Syllable]) -> Result<Option<u32>, Fail> {
    for place in 0..MOST / SPREAD {
        let number = place.saturating_mul(SPREAD);
        if !is_found(layers, syllables, number)? {
            return Ok(Some(number));
        }
    }
    Ok(None)
}

/// Half of the pairs are merged into the base, and then the others.
fn check_halves(
    rt: &impl Abort,
    layers: &mut InLayers,
    syllables: &[Syllable],
) -> Result<(), Fail> {
    assert_eq!(rt; first_not_added(layers, syllables, 0, HALF)?, None);
    let half = [
        Step::Freezes(100_000),
        Step::Waits {
            life: 100_000,
            rows: 100_000,
        },
        Step::Installs,
    ];
    are_answered(rt, layers, &half)?;
    assert_eq!(rt; first_not_added(layers, syllables, HALF, MOST)?, None);
    assert!(rt; is_one_too_many(layers, syllables)?);
    // a freeze and an install before it, and the learn that was refused
    let all = [
        Step::Freezes(200_003),
        Step::Waits {
            life: 200_000,
            rows: 200_000,
        },
        Step::Installs,
    ];
    are_answered(rt, layers, &all)?;
    assert_eq!(rt; first_not_found(layers, syllables)?, None);
    assert!(rt; is_one_too_many(layers, syllables)?);
    Ok(())
}

/// The same, from no pair on.
fn check_from_none(rt: &impl Abort, alloc: Global, syllables: &[Syllable]) -> Result<(), Fail> {
    let mut layers = InLayers::empty(alloc, 0, MOST)?;
    check_halves(rt, &mut layers, syllables)
}

#[test]
fn the_most_pairs_are_learnt_merged_and_found(rt: HostRuntime) -> Result<(), Fail> {
    let syllables = syllables(rt.alloc())?;
    check_from_none(&rt, rt.alloc(), &syllables)
}

/// The first number, of those that are spread over all, whose pair a map has not as its only one of the key.
fn first_missing(map: &Trie, syllables: &[Syllable]) -> Result<Option<u32>, Fail> {
    for place in 0..MOST / SPREAD {
        let number = place.saturating_mul(SPREAD);
        let key = key_of(syllables, number)?;
        if map.count(&key) != 1 || map.row(&key, 0).freq != freq_of(number) {
            return Ok(Some(number));
        }
    }
    Ok(None)
}

/// A disk in which the map of the snapshot that waits is saved.
fn saved(alloc: Global, layers: &InLayers) -> Result<MemDisk, Fail> {
    match layers.merged()? {
        Some(map) => disk_with(alloc, &map, 200_000),
        None => Err(Fail::new("nothing waits")),
    }
}

/// All pairs are added in one layer, which is saved with the base under it.
fn save_all(
    rt: &impl Abort,
    alloc: Global,
    layers: &mut InLayers,
    syllables: &[Syllable],
) -> Result<MemDisk, Fail> {
    assert_eq!(rt; first_not_added(layers, syllables, 0, MOST)?, None);
    are_answered(rt, layers, &[Step::Freezes(200_000)])?;
    saved(alloc, layers)
}

/// The same, from no pair on.
fn save_from_none(rt: &impl Abort, alloc: Global, syllables: &[Syllable]) -> Result<MemDisk, Fail> {
    let mut layers = InLayers::empty(alloc, 0, MOST)?;
    save_all(rt, alloc, &mut layers, syllables)
}

/// What was found has all pairs.
fn check_found(rt: &impl Abort, found: &Found, syllables: &[Syllable]) -> Result<(), Fail> {
    assert_eq!(rt; found.life, 200_000);
    assert_eq!(rt; found.map.total(), 200_000);
    assert_eq!(rt; first_missing(&found.map, syllables)?, None);
    Ok(())
}

/// All pairs are saved and recovered.
fn check_disk(rt: &impl Abort, alloc: Global, syllables: &[Syllable]) -> Result<(), Fail> {
    let mut disk = save_from_none(rt, alloc, syllables)?;
    let found = recover(alloc, &mut disk)?;
    check_found(rt, &found, syllables)
}

#[test]
fn the_most_pairs_are_saved_and_recovered(rt: HostRuntime) -> Result<(), Fail> {
    let syllables = syllables(rt.alloc())?;
    check_disk(&rt, rt.alloc(), &syllables)
}
