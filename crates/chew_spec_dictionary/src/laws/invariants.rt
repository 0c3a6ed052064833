//! What stays through a history.

ghost use Rattle.std.specs.Prelude.{◌≡◌, ℕ, ◌+◌, ◌-◌, ◌^◌, ◌≤◌, ◌<◌, ◌||◌, List, length, true, nat_le, Some};
ghost use Rattle.std.specs.List.{list_all};
ghost use Rattle.chew_spec_syllable.specs.Row.{Row, is_row};
ghost use Rattle.chew_spec_dictionary.specs.HiddenPairs.{is_hidden};
ghost use Rattle.chew_spec_dictionary.specs.Dictionary.{Dictionary};
ghost use Rattle.chew_spec_dictionary.specs.History.{Point, Entry, start_of, after, replies, calls_of, is_legal};

/// A legal history leaves rows in range, and no time after the life but for hidden pairs. No history
/// changes the cap or lets the life fall. A number gets as many replies as it made calls.
pub fn what_histories_keep()
    ensures rows { (p : Point) (h : List Entry) → is_legal p h ≡ true → list_all is_row p.dictionary.pairs ≡ true
        → list_all is_row (after p h).dictionary.pairs ≡ true }
    ensures cap { (p : Point) (h : List Entry) → (after p h).dictionary.cap ≡ p.dictionary.cap }
    ensures life { (p : Point) (h : List Entry) → p.dictionary.life ≤ 2 ^ 64 - 1
        → (p.dictionary.life ≤ (after p h).dictionary.life) × ((after p h).dictionary.life ≤ 2 ^ 64 - 1) }
    ensures times { (p : Point) (h : List Entry) → is_legal p h ≡ true → p.dictionary.life ≤ 2 ^ 64 - 1
        → list_all (λ row. is_hidden row || nat_le row.time p.dictionary.life) p.dictionary.pairs ≡ true
        → list_all (λ row. is_hidden row || nat_le row.time (after p h).dictionary.life) (after p h).dictionary.pairs ≡ true }
    ensures replies { (p : Point) (h : List Entry) (who : ℕ) → length (replies p h who) ≡ length (calls_of h who) }
{}

/// The numbers of a shape, after a legal history from the start: the installed one is not above the
/// waiting one, which is a place in the history.
pub fn numbers_of_a_shape()
    ensures installed { (d : Dictionary) (h : List Entry) → is_legal (start_of d) h ≡ true → (after (start_of d) h).shape.installed ≤ length h }
    ensures waiting { (d : Dictionary) (h : List Entry) (number : ℕ) → is_legal (start_of d) h ≡ true
        → (after (start_of d) h).shape.waiting ≡ Some number → ((after (start_of d) h).shape.installed ≤ number) × (number < length h) }
{}
