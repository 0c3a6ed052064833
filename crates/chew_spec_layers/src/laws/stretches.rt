//! Laws of the layer of a stretch of a history.

ghost use Rattle.std.specs.Prelude.{◌≡◌, ℕ, ◌-◌, ◌^◌, ◌++◌, List, [], ◌∷◌, true, false, Some, None};
ghost use Rattle.chew_spec_syllable.specs.Row.{Row};
ghost use Rattle.chew_spec_dictionary.specs.Call.{Learn, Forget, Hide, Learned, Forgot, Hid};
ghost use Rattle.chew_spec_dictionary.specs.Dictionary.{is_map, learn, forget, hide};
ghost use Rattle.chew_spec_dictionary.specs.History.{Entry, Point, after, answer};
ghost use Rattle.chew_spec_dictionary.specs.System.{row_of};
ghost use Rattle.chew_spec_layers.specs.Mark.{Live, Grave, Marked, put_mark, row_of_mark};
ghost use Rattle.chew_spec_layers.specs.Overlay.{overlay};
ghost use Rattle.chew_spec_layers.specs.Standing.{IsLayerOf};
ghost use Rattle.chew_spec_layers.specs.Touches.{is_about, tells_change};

/// A stretch of nothing has a layer of nothing. An entry that changes no pair leaves the layer, one that does has it get
/// the mark of what the pair is then, and the layer over the map before the stretch is the map after it.
pub fn layers_of_stretches()
    ensures nothing { (p : Point) → IsLayerOf p [] [] }
    ensures same { (p : Point) (h : List Entry) (marks : List Marked) (e : Entry) → IsLayerOf p h marks
        → tells_change (answer (after p h) e.call).reply ≡ false → IsLayerOf p (h ++ e ∷ []) marks }
    ensures changed { (p : Point) (h : List Entry) (marks : List Marked) (e : Entry) (marked : Marked) → IsLayerOf p h marks
        → is_about marked.key marked.phrase e.call ≡ true → tells_change (answer (after p h) e.call).reply ≡ true
        → row_of (answer (after p h) e.call).point.dictionary.pairs marked.key marked.phrase ≡ row_of_mark marked.key marked.phrase marked.mark
        → IsLayerOf p (h ++ e ∷ []) (put_mark marked marks) }
    ensures map { (p : Point) (h : List Entry) (marks : List Marked) → is_map p.dictionary.pairs ≡ true → IsLayerOf p h marks
        → overlay p.dictionary.pairs marks ≡ (after p h).dictionary.pairs }
{}

/// The mark that each call has the layer get: after Learned the frequency and the time of the reply, after Forgot a grave,
/// and after Hid the time of a hidden pair and the frequency that the pair had, or 0.
pub fn marks_of_calls()
    ensures learn { (p : Point) (h : List Entry) (marks : List Marked) (who : ℕ) (key phrase : List ℕ) (orig peak freq time : ℕ) → IsLayerOf p h marks
        → (learn (after p h).dictionary key phrase orig peak).reply ≡ Learned freq time
        → IsLayerOf p (h ++ record { who = who; call = Learn key phrase orig peak } ∷ [])
        (put_mark (record { key = key; phrase = phrase; mark = Live freq time }) marks) }
    ensures forget { (p : Point) (h : List Entry) (marks : List Marked) (who : ℕ) (key phrase : List ℕ) → IsLayerOf p h marks
        → (forget (after p h).dictionary key phrase).reply ≡ Forgot
        → IsLayerOf p (h ++ record { who = who; call = Forget key phrase } ∷ [])
        (put_mark (record { key = key; phrase = phrase; mark = Grave }) marks) }
    ensures hide { (p : Point) (h : List Entry) (marks : List Marked) (who : ℕ) (key phrase : List ℕ) (row : Row) → IsLayerOf p h marks
        → row_of (after p h).dictionary.pairs key phrase ≡ Some row → (hide (after p h).dictionary key phrase).reply ≡ Hid
        → IsLayerOf p (h ++ record { who = who; call = Hide key phrase } ∷ [])
        (put_mark (record { key = key; phrase = phrase; mark = Live row.freq (2 ^ 64 - 1) }) marks) }
    ensures new_hide { (p : Point) (h : List Entry) (marks : List Marked) (who : ℕ) (key phrase : List ℕ) → IsLayerOf p h marks
        → row_of (after p h).dictionary.pairs key phrase ≡ None → (hide (after p h).dictionary key phrase).reply ≡ Hid
        → IsLayerOf p (h ++ record { who = who; call = Hide key phrase } ∷ [])
        (put_mark (record { key = key; phrase = phrase; mark = Live 0 (2 ^ 64 - 1) }) marks) }
{}
