//! Laws and known values of what is read of a source.

ghost use Rattle.std.specs.Prelude.{◌≡◌, ℕ, ◌+◌, ◌<◌, ◌≤◌, List, [], length, take, drop, Some, None, codes, false, true};
ghost use Rattle.chew_spec_program.specs.Reading.{IsRead, IsReadWhere, Watched, watched};

/// A source that tells what it has left gives one text at most: all that was left where it is within the limit, else as
/// much as the limit and one byte more. What follows the text is left.
pub fn told_texts()
    ensures one { (source : Watched) (limit : ℕ) (left text other : List ℕ) → source.left ≡ Some left
        → IsRead source limit (Some text) → IsRead source limit (Some other) → text ≡ other }
    ensures within { (source : Watched) (limit : ℕ) (left text : List ℕ) → source.left ≡ Some left → length left ≤ limit
        → IsRead source limit (Some text) → text ≡ left }
    ensures beyond { (source : Watched) (limit : ℕ) (left text : List ℕ) → source.left ≡ Some left → limit < length left
        → IsRead source limit (Some text) → length text ≡ limit + 1 }
    ensures front { (source : Watched) (limit : ℕ) (left text : List ℕ) → source.left ≡ Some left
        → IsRead source limit (Some text) → text ≡ take (limit + 1) left }
    ensures rest { (source : Watched) (limit : ℕ) (left text : List ℕ) → source.left ≡ Some left
        → IsRead source limit (Some text) → source.left_now ≡ Some (drop (limit + 1) left) }
{}

/// Texts that a source of a few bytes gives with a limit of three: all, and one byte past the limit; a fault.
pub fn known_reads()
    ensures whole { IsRead (watched (Some (codes "abc")) (Some []) 0 0) 3 (Some (codes "abc")) }
    ensures longer { IsRead (watched (Some (codes "abcde")) (Some (codes "e")) 0 0) 3 (Some (codes "abcd")) }
    ensures failed { IsRead (watched (Some (codes "abc")) (Some (codes "c")) 0 1) 3 None }
    ensures untold { IsRead (watched None None 0 0) 3 (Some (codes "ab")) }
    ensures unread { IsReadWhere false (watched (Some (codes "abc")) (Some (codes "abc")) 0 0) 3 None }
{}

/// What such a source doesn't give: a byte less, the limit alone, more than a byte past it; a fault without a count that
/// rose, a text beside one that did; and what is left otherwise.
pub fn wrong_reads()
    ensures less { IsRead (watched (Some (codes "abc")) (Some []) 0 0) 3 (Some (codes "ab")) → ⊥ }
    ensures at_limit { IsRead (watched (Some (codes "abcde")) (Some (codes "de")) 0 0) 3 (Some (codes "abc")) → ⊥ }
    ensures too_much { IsRead (watched (Some (codes "abcde")) (Some []) 0 0) 3 (Some (codes "abcde")) → ⊥ }
    ensures other { IsRead (watched (Some (codes "abc")) (Some []) 0 0) 3 (Some (codes "abd")) → ⊥ }
    ensures calm_fault { IsRead (watched (Some (codes "abc")) (Some (codes "abc")) 0 0) 3 None → ⊥ }
    ensures risen { IsRead (watched (Some (codes "abc")) (Some []) 0 1) 3 (Some (codes "abc")) → ⊥ }
    ensures left { IsRead (watched (Some (codes "abcde")) (Some (codes "de")) 0 0) 3 (Some (codes "abcd")) → ⊥ }
    ensures untold { IsRead (watched None None 0 0) 3 (Some (codes "abcde")) → ⊥ }
    ensures taken_unread { IsReadWhere false (watched (Some (codes "abc")) (Some (codes "bc")) 0 0) 3 None → ⊥ }
    ensures risen_unread { IsReadWhere false (watched (Some (codes "abc")) (Some (codes "abc")) 0 1) 3 None → ⊥ }
    ensures not_read { IsReadWhere true (watched (Some (codes "abc")) (Some (codes "abc")) 0 0) 3 (Some (codes "abc")) → ⊥ }
{}
