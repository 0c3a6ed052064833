//! A second reading of images: field after field, as the format is described, with no thought of speed.

use chew_syllable::{Phrase, Syllable};
use std::alloc::Global;
use std::test::Fail;

/// A number of so many bytes, the low byte first. A byte past the end counts as 0.
fn number(bytes: &[u8], place: usize, len: usize) -> u64 {
    let mut value = 0u64;
    for i in 0..len {
        let at = place.saturating_add(len - 1 - i);
        let byte = bytes.get(at).copied().unwrap_or(0);
        value = value.wrapping_mul(256).wrapping_add(u64::from(byte));
    }
    value
}

/// How many rows, nodes and bytes of text there are, and what was counted so far of nodes and rows.
#[derive(Clone, Copy)]
struct Sums {
    rows: u64,
    nodes: u64,
    text: u64,
    children_so_far: u64,
    rows_so_far: u64,
}

/// What a node, or a row, must be: how many syllables its key has, and whether it is the first of its parent, or of its
/// key.
#[derive(Clone, Copy)]
struct Wanted {
    len: u64,
    first: bool,
}

/// Adds so many for one node.
fn want(wanted: &mut Vec<Wanted>, len: u64, count: u64) -> Result<(), Fail> {
    for i in 0..count {
        wanted.push(Wanted { len, first: i == 0 })?;
    }
    Ok(())
}

/// The first faulty place before the nodes.
fn header_place(bytes: &[u8], sums: &Sums) -> Option<u64> {
    let len = bytes.len() as u64;
    if !bytes.starts_with(b"CHEWTRI1") {
        return Some(0);
    }
    if len < 20 {
        return Some(len);
    }
    if sums.rows > 250_000 {
        return Some(8);
    }
    if sums.nodes == 0 || sums.nodes > sums.rows.saturating_mul(11).saturating_add(1) {
        return Some(12);
    }
    if sums.text > sums.rows.saturating_mul(44) {
        return Some(16);
    }
    let end = sums
        .nodes
        .saturating_mul(16)
        .saturating_add(sums.rows.saturating_mul(20))
        .saturating_add(sums.text)
        .saturating_add(20);
    if len == end {
        return None;
    }
    Some(if len < end { len } else { end })
}

/// A node as it stands in 16 bytes.
#[derive(Clone, Copy)]
struct NodeFields {
    code: u64,
    children: u64,
    first_child: u64,
    rows: u64,
    first_row: u64,
}

fn node_fields(bytes: &[u8], place: usize) -> NodeFields {
    NodeFields {
        code: number(bytes, place, 2),
        children: number(bytes, place.saturating_add(2), 2),
        first_child: number(bytes, place.saturating_add(4), 4),
        rows: number(bytes, place.saturating_add(8), 4),
        first_row: number(bytes, place.saturating_add(12), 4),
    }
}

/// Whether this is the code of a syllable.
fn is_code(code: u64) -> bool {
    match u16::try_from(code) {
        Ok(code) => Syllable::from_code(code).is_some(),
        Err(_) => false,
    }
}

/// The offset of the first faulty field of node 0.
fn root_offset(sums: &Sums, node: &NodeFields) -> Option<u64> {
    if node.code != 0 {
        return Some(0);
    }
    if node.children.saturating_add(1) > sums.nodes {
        return Some(2);
    }
    if node.first_child != 1 {
        return Some(4);
    }
    if node.rows != 0 {
        return Some(8);
    }
    if node.first_row != 0 {
        return Some(12);
    }
    None
}

/// The offset of the first faulty field of another node, behind one of this code.
fn node_offset(sums: &Sums, wanted: &Wanted, last_code: u64, node: &NodeFields) -> Option<u64> {
    if !is_code(node.code) || (!wanted.first && node.code <= last_code) {
        return Some(0);
    }
    if sums
        .children_so_far
        .saturating_add(node.children)
        .saturating_add(1)
        > sums.nodes
    {
        return Some(2);
    }
    if wanted.len >= 11 && node.children > 0 {
        return Some(2);
    }
    if node.first_child != sums.children_so_far.saturating_add(1) {
        return Some(4);
    }
    if sums.rows_so_far.saturating_add(node.rows) > sums.rows {
        return Some(8);
    }
    if node.rows == 0 && node.children == 0 {
        return Some(8);
    }
    if node.first_row != sums.rows_so_far {
        return Some(12);
    }
    None
}

/// What was read of nodes: which nodes and rows must follow. It is kept for the next reading, for its memory.
#[derive(Drop)]
pub(crate) struct Notes {
    nodes: Vec<Wanted>,
    rows: Vec<Wanted>,
}

/// The first faulty place of the nodes, and what rows they want.
fn nodes_place(bytes: &[u8], sums: &mut Sums, notes: &mut Notes) -> Result<Option<u64>, Fail> {
    let mut last_code = 0;
    let mut place = 20u64;
    for i in 0..sums.nodes {
        let node = node_fields(bytes, place as usize);
        let mut len = 0;
        if i == 0 {
            if let Some(offset) = root_offset(sums, &node) {
                return Ok(Some(place.saturating_add(offset)));
            }
        } else {
            let Some(wanted) = notes.nodes.get((i - 1) as usize) else {
                return Ok(Some(place));
            };
            if let Some(offset) = node_offset(sums, wanted, last_code, &node) {
                return Ok(Some(place.saturating_add(offset)));
            }
            len = wanted.len;
        }
        want(&mut notes.nodes, len.saturating_add(1), node.children)?;
        want(&mut notes.rows, len, node.rows)?;
        sums.children_so_far = sums.children_so_far.saturating_add(node.children);
        sums.rows_so_far = sums.rows_so_far.saturating_add(node.rows);
        last_code = node.code;
        place = place.saturating_add(16);
    }
    Ok(None)
}

/// Whether a row may have this phrase, behind one of another.
fn phrase_fits(wanted: &Wanted, last: &[u8], phrase: &[u8]) -> bool {
    match Phrase::read(phrase) {
        Ok(read) => read.characters() as u64 == wanted.len && (wanted.first || last < phrase),
        Err(_) => false,
    }
}

/// The first faulty place of the rows.
fn rows_place(bytes: &[u8], sums: &Sums, rows: &[Wanted]) -> Option<u64> {
    let mut place = sums.nodes.saturating_mul(16).saturating_add(20);
    let text = place.saturating_add(sums.rows.saturating_mul(20));
    let mut text_so_far = 0u64;
    let mut last: &[u8] = &[];
    for wanted in rows {
        let at = place as usize;
        if number(bytes, at, 4) > 99_999_999 {
            return Some(place);
        }
        if number(bytes, at.saturating_add(4), 4) != text_so_far {
            return Some(place.saturating_add(4));
        }
        let start = text.saturating_add(text_so_far);
        let end = start.saturating_add(number(bytes, at.saturating_add(8), 4));
        let phrase = bytes.get(start as usize..end as usize).unwrap_or(&[]);
        if !phrase_fits(wanted, last, phrase) {
            return Some(place.saturating_add(8));
        }
        last = phrase;
        text_so_far = text_so_far.saturating_add(phrase.len() as u64);
        place = place.saturating_add(20);
    }
    if text_so_far == sums.text {
        None
    } else {
        Some(16)
    }
}

/// No notes.
pub(crate) fn no_notes(alloc: Global) -> Notes {
    Notes {
        nodes: Vec::new(alloc),
        rows: Vec::new(alloc),
    }
}

/// The first faulty place of bytes, or none.
pub(crate) fn faulty_place(notes: &mut Notes, bytes: &[u8]) -> Result<Option<u64>, Fail> {
    notes.nodes.clear();
    notes.rows.clear();
    let mut sums = Sums {
        rows: number(bytes, 8, 4),
        nodes: number(bytes, 12, 4),
        text: number(bytes, 16, 4),
        children_so_far: 0,
        rows_so_far: 0,
    };
    if let Some(place) = header_place(bytes, &sums) {
        return Ok(Some(place));
    }
    if let Some(place) = nodes_place(bytes, &mut sums, notes)? {
        return Ok(Some(place));
    }
    if sums.rows_so_far != sums.rows {
        return Ok(Some(8));
    }
    Ok(rows_place(bytes, &sums, &notes.rows))
}
