//! What was told, beside what the plain map replies to the same calls.

use crate::calls::both_syllables;
use crate::failure::Failure;
use crate::heard::Heard;
use crate::kinds::has_each_kind;
use crate::plainly::Plainly;
use crate::replies::{are_all_same, are_same};
use chew_layers::Layers;
use chew_merge::merge;
use chew_plain::{Call, Entry, Hit, Reply, RowRef};
use chew_shared_samples::UserCall;
use chew_syllable::{Key, Run};
use std::alloc::Global;

/// The replies of the plain map to the calls of each number below so many.
fn replayed(
    alloc: Global,
    plain: &mut Plainly,
    journal: &[Entry],
    numbers: u32,
) -> Result<Vec<Heard>, Failure> {
    let mut heard = Vec::new(alloc);
    for who in 0..numbers {
        heard.push(Heard {
            who,
            replies: Vec::new(alloc),
        })?;
    }
    for entry in journal {
        let Some(reply) = plain.make(&entry.call)? else {
            return Err(Failure::Journal);
        };
        match heard.get_mut(entry.who as usize) {
            Some(own) => own.replies.push(reply)?,
            None => return Err(Failure::Journal),
        }
    }
    Ok(heard)
}

/// Whether each number was told just what the plain map replied to it.
fn are_alike(told: &[Heard], replayed: &[Heard]) -> bool {
    if told.len() != replayed.len() {
        return false;
    }
    for (one, other) in told.iter().zip(replayed.iter()) {
        if one.who != other.who {
            return false;
        }
        if !are_all_same(one.replies.as_slice(), other.replies.as_slice()) {
            return false;
        }
    }
    true
}

/// Whether a hit tells of this row.
fn is_told(hit: &Hit, len: usize, row: &RowRef<'_>) -> bool {
    let hidden = len > 1 && row.time == u64::MAX;
    (hit.len as usize, hit.freq, hit.hidden) == (len, row.freq, hidden)
        && hit.phrase.text() == row.phrase
}

/// The rows of the plain map, of which each is of an interval of the two syllables.
fn all_rows(plain: &mut Plainly) -> Result<Reply, Failure> {
    let Some(run) = Run::of(&both_syllables()) else {
        return Err(Failure::NoCall);
    };
    match plain.make(&Call::Look(run))? {
        Some(reply) => Ok(reply),
        None => Err(Failure::NoCall),
    }
}

/// Whether a look found the row of this key.
fn has_row(reply: &Reply, key: &Key, row: &RowRef<'_>) -> bool {
    let len = key.len();
    match reply {
        Reply::Rows(hits) => hits.list().iter().any(|hit| is_told(hit, len, row)),
        _ => false,
    }
}

/// Whether the layers hold the map of the plain one, with its life, once all calls so far are frozen.
fn hold_the_map(alloc: Global, layers: &mut Layers, plain: &mut Plainly) -> Result<bool, Failure> {
    let snapshot = layers.freeze(0)?;
    if snapshot.life != plain.life() {
        return Ok(false);
    }
    let map = merge(alloc, &snapshot)?;
    let rows = all_rows(plain)?;
    for (key, row) in map.each() {
        if !has_row(&rows, &key, &row) {
            return Ok(false);
        }
    }
    Ok(map.total() == plain.pairs())
}

/// Whether the layers go on as the plain map does, call by call.
fn go_on_alike(
    layers: &mut Layers,
    plain: &mut Plainly,
    calls: &[UserCall],
) -> Result<bool, Failure> {
    for call in calls {
        let layered = layers.apply(1, call.call())?;
        match plain.make(call.call())? {
            Some(reply) => {
                if !are_same(&layered, &reply) {
                    return Ok(false);
                }
            }
            None => return Ok(false),
        }
    }
    Ok(true)
}

/// Whether each kind of reply was told; whether the plain map, with the same calls in the order of the journal, replies to each
/// number what that was told, and is the map that the layers hold; and whether both go on alike.
pub(crate) fn compare(
    alloc: Global,
    mut layers: Layers,
    cap: u32,
    told: &[Heard],
    calls: &[UserCall],
) -> Result<(), Failure> {
    if !has_each_kind(told) {
        return Err(Failure::Kinds);
    }
    let Ok(numbers) = u32::try_from(told.len()) else {
        return Err(Failure::Passes);
    };
    let mut plain = Plainly::empty(alloc, cap)?;
    let all = replayed(alloc, &mut plain, layers.journal(), numbers)?;
    if !are_alike(told, all.as_slice()) {
        return Err(Failure::OtherReply);
    }
    if !hold_the_map(alloc, &mut layers, &mut plain)? {
        return Err(Failure::OtherMap);
    }
    if !go_on_alike(&mut layers, &mut plain, calls)? {
        return Err(Failure::OtherWay);
    }
    Ok(())
}
