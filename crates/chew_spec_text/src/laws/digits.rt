//! Known numbers in decimal digits.

ghost use Rattle.std.specs.Prelude.{◌≡◌, ℕ, ◌^◌, ◌<◌, ◌≤◌, [], ◌∷◌, Some, None, map, codes, decimal};
ghost use Rattle.chew_spec_text.specs.Digits.{number_up_to};

/// Digits write a number, with any number of zeros in front; other bytes, also the two beside the digits, and the empty
/// text write none, and neither do digits of a greater number.
pub fn known_numbers()
    ensures numbers { map (number_up_to 200) (codes "7" ∷ (codes "007" ∷ (codes "0" ∷ (codes "199" ∷ (codes "00200" ∷ [])))))
        ≡ map Some (7 ∷ (7 ∷ (0 ∷ (199 ∷ (200 ∷ []))))) }
    ensures beside { map (number_up_to 200) (codes "1/" ∷ (codes ":1" ∷ (codes "+1" ∷ (codes "-1" ∷ (codes "1 " ∷ (codes "0x1" ∷ []))))))
        ≡ None ∷ (None ∷ (None ∷ (None ∷ (None ∷ (None ∷ []))))) }
    ensures empty { number_up_to 200 [] ≡ None }
    ensures greater { number_up_to 200 (codes "201") ≡ None }
{}

/// A number of at most 64 bits, printed in decimal, is read as itself up to any number that isn't less, and as none up
/// to a lesser one.
pub fn printed_numbers()
    ensures read { (number most : ℕ) → number < 2 ^ 64 → number ≤ most → number_up_to most (decimal number) ≡ Some number }
    ensures too_great { (number most : ℕ) → number < 2 ^ 64 → most < number → number_up_to most (decimal number) ≡ None }
{}
