//! Known updates of a frequency.

ghost use Rattle.std.specs.Prelude.{◌≡◌, ℕ, ◌+◌, ◌-◌, ◌/◌, ◌≤◌, ◌<◌, min, max};
ghost use Rattle.chew_spec_dictionary.specs.Frequency.{update};

/// Known updates of a frequency.
pub fn known_updates()
    ensures greatest { update 99_999_999 0 99_999_999 0 ≡ 99_999_999 }
    ensures soon { update 100 0 1000 3999 ≡ 301 }
    ensures later { update 100 0 1000 4000 ≡ 201 }
    ensures nearly_late { update 100 0 1000 49_999 ≡ 201 }
    ensures late { update 100 0 1000 50_000 ≡ 80 }
    ensures not_below_orig { update 105 100 200 50_000 ≡ 100 }
{}

/// Bounds of an update: the greatest frequency; the system's frequency, where the pair's was not
/// below it, and after many learns in any case; and a pair that is learnt again before that rises,
/// unless its frequency is the greatest already.
pub fn bounds_of_update()
    ensures greatest { (freq orig greatest ticks : ℕ) → update freq orig greatest ticks ≤ 99_999_999 }
    ensures not_below_orig { (freq orig greatest ticks : ℕ) → orig ≤ freq → orig ≤ 99_999_999 → orig ≤ update freq orig greatest ticks }
    ensures late_not_below_orig { (freq orig greatest ticks : ℕ) → 50_000 ≤ ticks → orig ≤ 99_999_999 → orig ≤ update freq orig greatest ticks }
    ensures rises { (freq orig greatest ticks : ℕ) → ticks < 50_000 → freq < 99_999_999 → freq < update freq orig greatest ticks }
    ensures late_falls { (freq orig greatest ticks : ℕ) → 50_000 ≤ ticks → update freq orig greatest ticks ≤ max freq orig }
{}

/// The update by its table: soon is before 4000 learns, later before 50,000, and late from then on.
/// A sum above the greatest frequency is the greatest.
pub fn updates_by_table()
    ensures soon_met { (freq orig greatest ticks : ℕ) → ticks < 4000 → greatest ≤ freq
        → update freq orig greatest ticks ≡ min 99_999_999 (freq + min ((greatest - orig) / 5 + 1) 10) }
    ensures soon_below { (freq orig greatest ticks : ℕ) → ticks < 4000 → freq < greatest
        → update freq orig greatest ticks ≡ min 99_999_999 (freq + max ((greatest - orig) / 5 + 1) 10) }
    ensures later_met { (freq orig greatest ticks : ℕ) → 4000 ≤ ticks → ticks < 50_000 → greatest ≤ freq
        → update freq orig greatest ticks ≡ min 99_999_999 (freq + min ((greatest - orig) / 10 + 1) 5) }
    ensures later_below { (freq orig greatest ticks : ℕ) → 4000 ≤ ticks → ticks < 50_000 → freq < greatest
        → update freq orig greatest ticks ≡ min 99_999_999 (freq + max ((greatest - orig) / 10 + 1) 5) }
    ensures late { (freq orig greatest ticks : ℕ) → 50_000 ≤ ticks
        → update freq orig greatest ticks ≡ min 99_999_999 (max (freq - max ((freq - orig) / 5) 10) orig) }
{}
