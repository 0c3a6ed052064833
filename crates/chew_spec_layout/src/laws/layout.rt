//! Laws of any of the five layouts.

ghost use Rattle.std.specs.Prelude.{◌≡◌, ℕ, [], IsTrue, IsFalse};
ghost use Rattle.chew_spec_syllable.specs.Syllable.{is_code};
ghost use Rattle.chew_spec_layout.specs.Step.{Whole, Refused, NotMine};
ghost use Rattle.chew_spec_layout.specs.Layout.{Kind, Layout, new_layout, kind_in, feed, cleared, holds, shown, is_layout};

/// A new layout of each kind is of that kind, holds nothing and shows nothing.
pub fn new_is_empty()
    ensures kind { (kind : Kind) → kind_in (new_layout kind) ≡ kind }
    ensures holds { (kind : Kind) → IsFalse (holds (new_layout kind)) }
    ensures shows { (kind : Kind) → shown (new_layout kind) ≡ [] }
    ensures range { (kind : Kind) → IsTrue (is_layout (new_layout kind)) }
{}

/// Cleared, a layout is a new one of its kind; and so it is where it holds nothing.
pub fn cleared_is_new()
    ensures cleared { (layout : Layout) → cleared layout ≡ new_layout (kind_in layout) }
    ensures empty { (layout : Layout) → IsTrue (is_layout layout) → IsFalse (holds layout) → layout ≡ new_layout (kind_in layout) }
{}

/// After a whole syllable nothing is held: the layout is a new one of its kind.
pub fn whole_empties()
    ensures new { (layout : Layout) (key code : ℕ) → (feed layout key).step ≡ Whole code → (feed layout key).layout ≡ new_layout (kind_in layout) }
    ensures holds { (layout : Layout) (key code : ℕ) → (feed layout key).step ≡ Whole code → IsFalse (holds (feed layout key).layout) }
{}

/// A refused key and a key that isn't the layout's change nothing.
pub fn kept_otherwise()
    ensures refused { (layout : Layout) (key : ℕ) → (feed layout key).step ≡ Refused → (feed layout key).layout ≡ layout }
    ensures not_mine { (layout : Layout) (key : ℕ) → (feed layout key).step ≡ NotMine → (feed layout key).layout ≡ layout }
{}

/// A key leaves the kind of a layout, and what it holds in the range of its kind; what is whole is a syllable.
pub fn stays_a_layout()
    ensures kind { (layout : Layout) (key : ℕ) → kind_in (feed layout key).layout ≡ kind_in layout }
    ensures range { (layout : Layout) (key : ℕ) → IsTrue (is_layout layout) → IsTrue (is_layout (feed layout key).layout) }
    ensures whole { (layout : Layout) (key code : ℕ) → IsTrue (is_layout layout) → (feed layout key).step ≡ Whole code → IsTrue (is_code code) }
{}

/// A layout shows nothing exactly where it holds nothing.
pub fn shows_what_it_holds()
    ensures nothing { (layout : Layout) → IsTrue (is_layout layout) → IsFalse (holds layout) → shown layout ≡ [] }
    ensures something { (layout : Layout) → shown layout ≡ [] → IsFalse (holds layout) }
{}
