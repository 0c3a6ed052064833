//! Laws of what was seen of a history.

ghost use Rattle.std.specs.Prelude.{◌≡◌, ◌≢◌, ◌⊎◌, ℕ, ◌+◌, ◌≤◌, List, [], ◌∷◌, ◌++◌, length};
ghost use Rattle.chew_spec_dictionary.specs.Growth.{IsFront};
ghost use Rattle.chew_spec_dictionary.specs.History.{Entry, own};
ghost use Rattle.chew_spec_cell.specs.Sight.{HasSeen, IsTurn, longer};

/// Who has seen this much of a history has seen all its own entries, and a front of the history. All of it is
/// seen by anybody; what was seen of a list that was seen of a history was seen of the history; and the entry of
/// another changes nothing.
pub fn what_was_seen()
    ensures own { (who : ℕ) (seen history : List Entry) → HasSeen who seen history → own history who ≡ own seen who }
    ensures front { (who : ℕ) (seen history : List Entry) → HasSeen who seen history → IsFront seen history }
    ensures all { (who : ℕ) (history : List Entry) → HasSeen who history history }
    ensures over { (who : ℕ) (seen between history : List Entry) → HasSeen who seen between → HasSeen who between history → HasSeen who seen history }
    ensures others { (who : ℕ) (seen history : List Entry) (e : Entry) → HasSeen who seen history → e.who ≢ who → HasSeen who seen (history ++ e ∷ []) }
    ensures one { (who : ℕ) (seen other history : List Entry) → HasSeen who seen history → IsFront other history → length seen ≤ length other
        → HasSeen who seen other }
{}

/// A turn adds at most one entry, and none of another number.
pub fn what_a_turn_adds()
    ensures front { (who : ℕ) (before after : List Entry) → IsTurn who before after → IsFront before after }
    ensures length { (who : ℕ) (before after : List Entry) → IsTurn who before after → length after ≤ length before + 1 }
    ensures own { (who : ℕ) (before after : List Entry) → IsTurn who before after
        → (own after who ≡ own before who) ⊎ ((e : Entry) × (own after who ≡ own before who ++ e ∷ [])) }
    ensures others { (who other : ℕ) (before after : List Entry) → IsTurn who before after → other ≢ who → HasSeen other before after }
{}

/// The longer of two lists is one of them, and as long as either; where one begins the other it is the other.
pub fn longer_of_two_lists()
    ensures one { (seen other : List Entry) → (longer seen other ≡ seen) ⊎ (longer seen other ≡ other) }
    ensures seen { (seen other : List Entry) → length seen ≤ length (longer seen other) }
    ensures other { (seen other : List Entry) → length other ≤ length (longer seen other) }
    ensures front { (seen other : List Entry) → IsFront seen other → longer seen other ≡ other }
{}
