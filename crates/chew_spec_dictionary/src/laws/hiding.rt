//! Laws of hidden pairs and of a hide.

ghost use Rattle.std.specs.Prelude.{◌≡◌, ◌≢◌, ◌↔◌, ℕ, ◌-◌, ◌^◌, ◌≤◌, ◌<◌, List, length, Some, None, true, false, Contains};
ghost use Rattle.chew_spec_syllable.specs.Row.{Row};
ghost use Rattle.chew_spec_dictionary.specs.Call.{Reply, Full, NotThere, Hid};
ghost use Rattle.chew_spec_dictionary.specs.HiddenPairs.{is_hidden, shown_rows};
ghost use Rattle.chew_spec_dictionary.specs.System.{row_of};
ghost use Rattle.chew_spec_dictionary.specs.Dictionary.{Dictionary, hide};

/// A pair is hidden exactly where its key has at least two syllables and its time is 2^64 - 1, so one
/// of a single syllable never is; and the rows that are shown are those that are not hidden.
pub fn hidden_pairs()
    ensures hidden { (row : Row) → (is_hidden row ≡ true) ↔ ((2 ≤ length row.key) × (row.time ≡ 2 ^ 64 - 1)) }
    ensures single { (row : Row) → length row.key < 2 → is_hidden row ≡ false }
    ensures shown { (rows : List Row) (row : Row) → Contains (shown_rows rows) row ↔ (Contains rows row × (is_hidden row ≡ false)) }
{}

/// What a hide answers. NotThere comes exactly where the pair is hidden already, Full exactly where it
/// is not held and the map holds as many pairs as the cap, or more, and else Hid.
pub fn answers_of_hide()
    ensures not_there { (had : Dictionary) (key phrase : List ℕ) → ((hide had key phrase).reply ≡ NotThere)
        ↔ ((row : Row) × (row_of had.pairs key phrase ≡ Some row) × (is_hidden row ≡ true)) }
    ensures full { (had : Dictionary) (key phrase : List ℕ) → ((hide had key phrase).reply ≡ Full)
        ↔ ((row_of had.pairs key phrase ≡ None) × (had.cap ≤ length had.pairs)) }
    ensures hid { (had : Dictionary) (key phrase : List ℕ) → (hide had key phrase).reply ≢ NotThere → (hide had key phrase).reply ≢ Full
        → (hide had key phrase).reply ≡ Hid }
{}

/// What a hide leaves. Where the reply is not Hid all is as it was. Else the pair is held with the time
/// of a hidden one and its frequency, or 0 where it was not held; and no other pair changes, and never
/// the life or the cap.
pub fn left_by_hide()
    ensures same { (had : Dictionary) (key phrase : List ℕ) → (hide had key phrase).reply ≢ Hid → (hide had key phrase).left ≡ had }
    ensures held { (had : Dictionary) (key phrase : List ℕ) (row : Row) → row_of had.pairs key phrase ≡ Some row → (hide had key phrase).reply ≡ Hid
        → row_of (hide had key phrase).left.pairs key phrase ≡ Some (record { key = key; phrase = phrase; freq = row.freq; time = 2 ^ 64 - 1 }) }
    ensures new { (had : Dictionary) (key phrase : List ℕ) → row_of had.pairs key phrase ≡ None → (hide had key phrase).reply ≡ Hid
        → row_of (hide had key phrase).left.pairs key phrase ≡ Some (record { key = key; phrase = phrase; freq = 0; time = 2 ^ 64 - 1 }) }
    ensures others { (had : Dictionary) (key phrase k p : List ℕ) → (key ≡ k → phrase ≢ p)
        → row_of (hide had key phrase).left.pairs k p ≡ row_of had.pairs k p }
    ensures life { (had : Dictionary) (key phrase : List ℕ) → (hide had key phrase).left.life ≡ had.life }
    ensures cap { (had : Dictionary) (key phrase : List ℕ) → (hide had key phrase).left.cap ≡ had.cap }
{}
