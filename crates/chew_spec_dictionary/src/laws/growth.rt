//! Laws of histories that grow.

ghost use Rattle.std.specs.Prelude.{◌≡◌, ◌≢◌, ◌↔◌, ℕ, ◌+◌, ◌≤◌, ◌<◌, ◌++◌, List, [], ◌∷◌, length, Some, None};
ghost use Rattle.chew_spec_dictionary.specs.Call.{Call, Reply};
ghost use Rattle.chew_spec_dictionary.specs.History.{Point, Entry, after, answer, calls_of, replies};
ghost use Rattle.chew_spec_dictionary.specs.Growth.{IsFront, Made, reply_at};

/// A list is a front of itself and of each list that goes on from it, also over one in between.
pub fn fronts_of_lists<T>()
    ensures itself { (xs : List T) → IsFront xs xs }
    ensures longer { (xs more : List T) → IsFront xs (xs ++ more) }
    ensures over { (xs ys zs : List T) → IsFront xs ys → IsFront ys zs → IsFront xs zs }
{}

/// What a number asks and hears while a history grows: nothing where it doesn't grow, and nothing by the
/// entry of another; by one of its own its call and the reply; and what it asks and hears over two
/// stretches is that of the first and then that of the second.
pub fn calls_made()
    ensures nothing { (start : Point) (h : List Entry) (who : ℕ) → Made start h h who [] [] }
    ensures own { (start : Point) (h : List Entry) (e : Entry)
        → Made start h (h ++ e ∷ []) e.who (e.call ∷ []) ((answer (after start h) e.call).reply ∷ []) }
    ensures others { (start : Point) (h : List Entry) (e : Entry) (who : ℕ) → e.who ≢ who → Made start h (h ++ e ∷ []) who [] [] }
    ensures over { (start : Point) (before between now : List Entry) (who : ℕ) (asked more : List Call) (heard later : List Reply)
        → Made start before between who asked heard → Made start between now who more later
        → Made start before now who (asked ++ more) (heard ++ later) }
{}

/// What is known of a history that grew: it begins as before, the number's calls and replies are those
/// before and then these, each call has its reply, and from nothing on they are all.
pub fn histories_grown()
    ensures front { (start : Point) (before now : List Entry) (who : ℕ) (asked : List Call) (heard : List Reply)
        → Made start before now who asked heard → IsFront before now }
    ensures calls { (start : Point) (before now : List Entry) (who : ℕ) (asked : List Call) (heard : List Reply)
        → Made start before now who asked heard → calls_of now who ≡ calls_of before who ++ asked }
    ensures replies { (start : Point) (before now : List Entry) (who : ℕ) (asked : List Call) (heard : List Reply)
        → Made start before now who asked heard → replies start now who ≡ replies start before who ++ heard }
    ensures each { (start : Point) (before now : List Entry) (who : ℕ) (asked : List Call) (heard : List Reply)
        → Made start before now who asked heard → length heard ≡ length asked }
    ensures all { (start : Point) (h : List Entry) (who : ℕ) (asked : List Call) (heard : List Reply) → Made start [] h who asked heard
        ↔ ((calls_of h who ≡ asked) × (replies start h who ≡ heard)) }
{}

/// The reply at a place of a history: it does not depend on what follows, in the second of two histories
/// it is the one from the point that the first leaves, and behind the last entry there is none.
pub fn replies_by_place()
    ensures here { (p : Point) (h : List Entry) (e : Entry) (more : List Entry)
        → reply_at p (h ++ e ∷ more) (length h) ≡ Some (answer (after p h) e.call).reply }
    ensures first { (p : Point) (h more : List Entry) (place : ℕ) → place < length h → reply_at p (h ++ more) place ≡ reply_at p h place }
    ensures second { (p : Point) (h more : List Entry) (place : ℕ) → reply_at p (h ++ more) (length h + place) ≡ reply_at (after p h) more place }
    ensures none { (p : Point) (h : List Entry) (place : ℕ) → length h ≤ place → reply_at p h place ≡ None }
{}
