//! Laws of what calls and histories change.

ghost use Rattle.std.specs.Prelude.{◌≡◌, ℕ, ◌+◌, ◌++◌, ◌||◌, List, [], ◌∷◌, length, true, false};
ghost use Rattle.chew_spec_dictionary.specs.Call.{Hit, Call, Look, Learn, Forget, Hide, Freeze, Install, Rows, Learned, Full, Forgot, NotThere, Hid, Frozen, Installed};
ghost use Rattle.chew_spec_dictionary.specs.System.{row_of};
ghost use Rattle.chew_spec_dictionary.specs.History.{Entry, Point, after, answer};
ghost use Rattle.chew_spec_layers.specs.Touches.{tells_change, is_about, changes, touches, touched};

/// Which replies tell of a change: Learned, Forgot and Hid.
pub fn replies_that_tell()
    ensures learned { (freq time : ℕ) → tells_change (Learned freq time) ≡ true }
    ensures forgot { tells_change Forgot ≡ true }
    ensures hid { tells_change Hid ≡ true }
    ensures full { tells_change Full ≡ false }
    ensures not_there { tells_change NotThere ≡ false }
    ensures rows { (hits : List Hit) → tells_change (Rows hits) ≡ false }
    ensures frozen { (number : ℕ) → tells_change (Frozen number) ≡ false }
    ensures installed { tells_change Installed ≡ false }
{}

/// A call changes the row of the pair that it is about, and only where its reply tells so; any other row stays.
pub fn what_a_call_changes()
    ensures learn { (key phrase : List ℕ) (orig peak : ℕ) → is_about key phrase (Learn key phrase orig peak) ≡ true }
    ensures forget { (key phrase : List ℕ) → is_about key phrase (Forget key phrase) ≡ true }
    ensures hide { (key phrase : List ℕ) → is_about key phrase (Hide key phrase) ≡ true }
    ensures look { (key phrase run : List ℕ) → is_about key phrase (Look run) ≡ false }
    ensures freeze { (key phrase : List ℕ) → is_about key phrase Freeze ≡ false }
    ensures install { (key phrase : List ℕ) (number : ℕ) → is_about key phrase (Install number) ≡ false }
    ensures one { (call : Call) (key phrase k p : List ℕ) → is_about key phrase call ≡ true → (key ≡ k → phrase ≡ p → ⊥) → is_about k p call ≡ false }
    ensures same { (p : Point) (call : Call) → tells_change (answer p call).reply ≡ false → (answer p call).point.dictionary ≡ p.dictionary }
    ensures others { (p : Point) (call : Call) (key phrase : List ℕ) → changes p call key phrase ≡ false
        → row_of (answer p call).point.dictionary.pairs key phrase ≡ row_of p.dictionary.pairs key phrase }
{}

/// A pair that no entry of a history changes keeps its row. What two histories touch is what the first does, and what the
/// second does from the point that the first leaves; and a stretch between two places touches what it does by itself.
pub fn touched_pairs()
    ensures stays { (p : Point) (h : List Entry) (key phrase : List ℕ) → touches p h key phrase ≡ false
        → row_of (after p h).dictionary.pairs key phrase ≡ row_of p.dictionary.pairs key phrase }
    ensures nothing { (p : Point) (key phrase : List ℕ) → touches p [] key phrase ≡ false }
    ensures joined { (p : Point) (h more : List Entry) (key phrase : List ℕ)
        → touches p (h ++ more) key phrase ≡ touches p h key phrase || touches (after p h) more key phrase }
    ensures second { (p : Point) (h middle more : List Entry) (key phrase : List ℕ)
        → touched p (h ++ (middle ++ more)) (length h) (length h + length middle) key phrase ≡ touches (after p h) middle key phrase }
{}
