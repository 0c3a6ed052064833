ghost use Rattle.std.specs.Prelude.{◌≡◌, ℕ, ◌+◌, ◌<◌, ◌≤◌, List, Some, length, slice_get};
ghost use Rattle.chew_spec_image.specs.NodeKeys.{node_keys, parent_of};
ghost use Rattle.chew_trie_read.specs.Search.{code_at, key_at};
ghost use Rattle.chew_trie_read.specs.Start.{start_at};

use crate::image::Image;
use chew_syllable::{KEY_LIMIT, Key, Syllable};

/// What of a node begins at a place: its children among all nodes, or its rows among all rows.
#[derive(Clone, Copy)]
pub(crate) enum Start {
    Children,
    Rows,
}

/// Where that is.
fn start_of(image: &Image, i: u32, start: Start) -> u32
    requires { i < length (node_keys image.now) }
    ensures { result ≡ start_at image.now start i }
{
    let node = image.node(i);
    match start {
        Start::Children => node.first_child,
        Start::Rows => node.first_row,
    }
}

/// The last node from one place up to another whose start isn't above `place`, where the first's isn't.
fn last_before(image: &Image, start: Start, low: u32, high: u32, place: u32) -> u32
    requires order { low < high }
    requires within { high ≤ length (node_keys image.now) }
    requires from { start_at image.now start low ≤ place }
    requires upto { high < length (node_keys image.now) → place < start_at image.now start high }
    ensures within { result < length (node_keys image.now) }
    ensures from { start_at image.now start result ≤ place }
    ensures upto { result + 1 < length (node_keys image.now) → place < start_at image.now start (result + 1) }
{
    if high - low == 1 {
        return low;
    }
    let middle = low + (high - low) / 2;
    if start_of(image, middle, start) <= place {
        return last_before(image, start, middle, high, place);
    }
    last_before(image, start, low, middle, place)
}

/// The parent of a node other than node 0.
fn parent_of(image: &Image, i: u32) -> u32
    requires some { 0 < i }
    requires within { i < length (node_keys image.now) }
    ensures within { result < length (node_keys image.now) }
    ensures parent { key_at image.now result ≡ parent_of (key_at image.now i) }
{
    last_before(image, Start::Children, 0, image.nodes(), i)
}

/// The node of a row.
fn node_of(image: &Image, place: u32) -> u32
    requires { place < length image.now }
    ensures within { result < length (node_keys image.now) }
    ensures key { (phrase : List ℕ) × (freq : ℕ) × (time : ℕ)
        × (slice_get image.now place ≡ Some (record { key = key_at image.now result; phrase = phrase; freq = freq; time = time })) }
{
    let _rows = image.rows();
    last_before(image, Start::Rows, 0, image.nodes(), place)
}

/// The last syllable of a node's key.
fn syllable_of(image: &Image, i: u32) -> Syllable
    requires some { 0 < i }
    requires within { i < length (node_keys image.now) }
    ensures { result ≡ code_at image.now i }
{
    let _rows = image.rows();
    match Syllable::from_code(image.node(i).code) {
        Some(syllable) => syllable,
        None => unreachable!(),
    }
}

/// The key of the row at a place.
pub(crate) fn key_of(image: &Image, place: u32) -> Key
    requires { place < length image.now }
    ensures { (phrase : List ℕ) × (freq : ℕ) × (time : ℕ)
        × (slice_get image.now place ≡ Some (record { key = result; phrase = phrase; freq = freq; time = time })) }
{
    let _rows = image.rows();
    let mut syllables = [Syllable::default(); KEY_LIMIT];
    let mut from = KEY_LIMIT;
    let start = node_of(image, place);
    let mut node = start;
    'climbing: while node > 0 {
        from -= 1;
        syllables[from] = syllable_of(image, node);
        node = parent_of(image, node);
    }
    let whole = &syllables[..];
    Key::of_some(&whole[from..])
}
