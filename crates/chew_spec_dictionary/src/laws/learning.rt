//! Laws of a learn and a forget.

ghost use Rattle.std.specs.Prelude.{◌≡◌, ◌≢◌, ◌↔◌, ℕ, ◌+◌, ◌-◌, ◌^◌, ◌≤◌, ◌<◌, min, max, List, length, ◌==◌, if◌then◌else◌, Some, None, true, false};
ghost use Rattle.chew_spec_syllable.specs.Row.{Row};
ghost use Rattle.chew_spec_dictionary.specs.Call.{Reply, Learned, Full, Forgot, NotThere};
ghost use Rattle.chew_spec_dictionary.specs.HiddenPairs.{is_hidden, shown_rows};
ghost use Rattle.chew_spec_dictionary.specs.System.{row_of, peak_of};
ghost use Rattle.chew_spec_dictionary.specs.Frequency.{update};
ghost use Rattle.chew_spec_dictionary.specs.Dictionary.{Dictionary, learn, forget};

/// What a learn answers. A pair that is held and not hidden gets the updated frequency, in which no
/// hidden pair counts; a hidden one and a new one get the system's, or 1; and Full comes exactly where a new pair finds as many pairs as the cap, or more.
pub fn answers_of_learn()
    ensures held { (had : Dictionary) (key phrase : List ℕ) (orig peak : ℕ) (row : Row) → row_of had.pairs key phrase ≡ Some row
        → is_hidden row ≡ false
        → (learn had key phrase orig peak).reply
        ≡ Learned (update row.freq orig (max (max orig peak) (peak_of (shown_rows had.pairs) key)) (had.life - row.time)) (min had.life (2 ^ 64 - 2)) }
    ensures hidden { (had : Dictionary) (key phrase : List ℕ) (orig peak : ℕ) (row : Row) → row_of had.pairs key phrase ≡ Some row
        → is_hidden row ≡ true → (learn had key phrase orig peak).reply ≡ Learned (if orig == 0 then 1 else orig) (min had.life (2 ^ 64 - 2)) }
    ensures new { (had : Dictionary) (key phrase : List ℕ) (orig peak : ℕ) → row_of had.pairs key phrase ≡ None → length had.pairs < had.cap
        → (learn had key phrase orig peak).reply ≡ Learned (if orig == 0 then 1 else orig) (min had.life (2 ^ 64 - 2)) }
    ensures full { (had : Dictionary) (key phrase : List ℕ) (orig peak : ℕ) → ((learn had key phrase orig peak).reply ≡ Full)
        ↔ ((row_of had.pairs key phrase ≡ None) × (had.cap ≤ length had.pairs)) }
{}

/// What a learn leaves. Full leaves all as it was. Else the pair has the frequency and the time of
/// the reply and is not hidden, no other pair changes, and the life has risen by one, up to 2^64 - 1.
pub fn left_by_learn()
    ensures full { (had : Dictionary) (key phrase : List ℕ) (orig peak : ℕ) → (learn had key phrase orig peak).reply ≡ Full
        → (learn had key phrase orig peak).left ≡ had }
    ensures pair { (had : Dictionary) (key phrase : List ℕ) (orig peak freq time : ℕ) → (learn had key phrase orig peak).reply ≡ Learned freq time
        → row_of (learn had key phrase orig peak).left.pairs key phrase ≡ Some (record { key = key; phrase = phrase; freq = freq; time = time }) }
    ensures shown { (had : Dictionary) (key phrase : List ℕ) (orig peak : ℕ) (row : Row) → (learn had key phrase orig peak).reply ≢ Full
        → row_of (learn had key phrase orig peak).left.pairs key phrase ≡ Some row → is_hidden row ≡ false }
    ensures others { (had : Dictionary) (key phrase : List ℕ) (orig peak : ℕ) (k p : List ℕ) → (key ≡ k → phrase ≢ p)
        → row_of (learn had key phrase orig peak).left.pairs k p ≡ row_of had.pairs k p }
    ensures life { (had : Dictionary) (key phrase : List ℕ) (orig peak : ℕ) → (learn had key phrase orig peak).reply ≢ Full
        → (learn had key phrase orig peak).left.life ≡ min (had.life + 1) (2 ^ 64 - 1) }
    ensures cap { (had : Dictionary) (key phrase : List ℕ) (orig peak : ℕ) → (learn had key phrase orig peak).left.cap ≡ had.cap }
{}

/// What a forget answers and leaves. NotThere comes exactly where the pair is not held, hidden or not, and leaves
/// all as it was. Else the pair is gone and nothing else changes.
pub fn laws_of_forget()
    ensures not_there { (had : Dictionary) (key phrase : List ℕ) → ((forget had key phrase).reply ≡ NotThere) ↔ (row_of had.pairs key phrase ≡ None) }
    ensures forgot { (had : Dictionary) (key phrase : List ℕ) (row : Row) → row_of had.pairs key phrase ≡ Some row
        → (forget had key phrase).reply ≡ Forgot }
    ensures same { (had : Dictionary) (key phrase : List ℕ) → (forget had key phrase).reply ≡ NotThere → (forget had key phrase).left ≡ had }
    ensures gone { (had : Dictionary) (key phrase : List ℕ) → row_of (forget had key phrase).left.pairs key phrase ≡ None }
    ensures others { (had : Dictionary) (key phrase k p : List ℕ) → (key ≡ k → phrase ≢ p)
        → row_of (forget had key phrase).left.pairs k p ≡ row_of had.pairs k p }
    ensures life { (had : Dictionary) (key phrase : List ℕ) → (forget had key phrase).left.life ≡ had.life }
    ensures cap { (had : Dictionary) (key phrase : List ℕ) → (forget had key phrase).left.cap ≡ had.cap }
{}
