ghost use Rattle.std.specs.Prelude.{◌≡◌, ℕ, ◌+◌, ◌<◌, ◌≤◌, ◌++◌, [], ◌∷◌, IfNone, IfSome, Some, length, slice_get};
ghost use Rattle.chew_spec_image.specs.NodeKeys.{node_keys};
ghost use Rattle.chew_trie_read.specs.Search.{CodesRise, code_at, key_at};

use crate::image::Image;
use chew_syllable::Syllable;
use std::cmp::Ordering;

/// The node of this code among those from one place up to another, whose codes rise.
fn search(image: &Image, low: u32, high: u32, code: u16) -> Option<u32>
    requires order { low ≤ high }
    requires within { high ≤ length (node_keys image.now) }
    ensures from { IfSome result (λ i. low ≤ i) }
    ensures upto { IfSome result (λ i. i < high) }
    ensures some { IfSome result (λ i. code_at image.now i ≡ code) }
    ensures none { IfNone result (CodesRise image.now low high → (i : ℕ) → low ≤ i → i < high → code_at image.now i ≡ code → ⊥) }
{
    if low == high {
        return None;
    }
    let middle = low + (high - low) / 2;
    match image.node(middle).code.cmp(&code) {
        Ordering::Equal => Some(middle),
        Ordering::Less => search(image, middle + 1, high, code),
        Ordering::Greater => search(image, low, middle, code),
    }
}

/// The child of a node that has this code.
fn child_of(image: &Image, i: u32, code: u16) -> Option<u32>
    requires { i < length (node_keys image.now) }
    ensures within { IfSome result (λ child. child < length (node_keys image.now)) }
    ensures some { IfSome result (λ child. key_at image.now child ≡ key_at image.now i ++ code ∷ []) }
    ensures none { IfNone result ((child : ℕ) → child < length (node_keys image.now) → key_at image.now child ≡ key_at image.now i ++ code ∷ [] → ⊥) }
{
    let _nodes = image.nodes();
    let node = image.node(i);
    search(
        image,
        node.first_child,
        node.first_child + node.children as u32,
        code,
    )
}

/// The node of a key.
pub(crate) fn find(image: &Image, key: &[Syllable]) -> Option<u32>
    ensures within { IfSome result (λ i. i < length (node_keys image.now)) }
    ensures some { IfSome result (λ i. key_at image.now i ≡ key.now) }
    ensures none { IfNone result ((i : ℕ) → i < length (node_keys image.now) → key_at image.now i ≡ key.now → ⊥) }
{
    let mut node = 0;
    for syllable in key {
        node = child_of(image, node, syllable.code())?;
    }
    Some(node)
}
