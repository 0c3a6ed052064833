//! Laws and known values of syllables, their codes and their texts.

ghost use Rattle.std.specs.Prelude.{◌≡◌, ℕ, ◌≤◌, List, [], ◌∷◌, length, take, flat_map, IsTrue, IsFalse, encode_utf8_all, Ok, Err, codes};
ghost use Rattle.std.specs.List.{count_by, range_with_len};
ghost use Rattle.chew_spec_syllable.specs.Syllable.{Parts, is_syllable, is_code, code_of, parts_of};
ghost use Rattle.chew_spec_syllable.specs.SyllableText.{code_reading, front_parts, syllable_reading, text_of};

/// ㄘㄜˋ is 10268, ㄕˋ is 8708 and ㄧㄚ is 136.
pub fn known_codes()
    ensures ce { code_of (record { initial = 20; medial = 0; final = 3; tone = 4 }) ≡ 10268 }
    ensures shi { code_of (record { initial = 17; medial = 0; final = 0; tone = 4 }) ≡ 8708 }
    ensures ya { code_of (record { initial = 0; medial = 1; final = 1; tone = 0 }) ≡ 136 }
{}

/// The greatest number of each part is a syllable's, and the next isn't; a tone alone is none.
pub fn known_limits()
    ensures greatest { IsTrue (is_syllable (record { initial = 21; medial = 3; final = 13; tone = 4 })) }
    ensures initial_too_great { IsFalse (is_syllable (record { initial = 22; medial = 3; final = 13; tone = 4 })) }
    ensures medial_too_great { IsFalse (is_syllable (record { initial = 21; medial = 4; final = 13; tone = 4 })) }
    ensures final_too_great { IsFalse (is_syllable (record { initial = 21; medial = 3; final = 14; tone = 4 })) }
    ensures tone_too_great { IsFalse (is_syllable (record { initial = 21; medial = 3; final = 13; tone = 5 })) }
    ensures initial_alone { IsTrue (is_syllable (record { initial = 1; medial = 0; final = 0; tone = 0 })) }
    ensures medial_alone { IsTrue (is_syllable (record { initial = 0; medial = 1; final = 0; tone = 0 })) }
    ensures final_alone { IsTrue (is_syllable (record { initial = 0; medial = 0; final = 1; tone = 0 })) }
    ensures tone_alone { IsFalse (is_syllable (record { initial = 0; medial = 0; final = 0; tone = 1 })) }
{}

/// The marks of all parts by their numbers, the initials and the finals behind ㄧ, and the tones of ㄚ, of which the first has
/// no mark.
pub fn known_marks()
    ensures initials { flat_map (λ n. text_of (record { initial = n; medial = 1; final = 0; tone = 0 })) (range_with_len 1 21)
        ≡ encode_utf8_all (codes "ㄅㄧㄆㄧㄇㄧㄈㄧㄉㄧㄊㄧㄋㄧㄌㄧㄍㄧㄎㄧㄏㄧㄐㄧㄑㄧㄒㄧㄓㄧㄔㄧㄕㄧㄖㄧㄗㄧㄘㄧㄙㄧ") }
    ensures medials { flat_map (λ n. text_of (record { initial = 0; medial = n; final = 0; tone = 0 })) (range_with_len 1 3) ≡ encode_utf8_all (codes "ㄧㄨㄩ") }
    ensures finals { flat_map (λ n. text_of (record { initial = 0; medial = 1; final = n; tone = 0 })) (range_with_len 1 13)
        ≡ encode_utf8_all (codes "ㄧㄚㄧㄛㄧㄜㄧㄝㄧㄞㄧㄟㄧㄠㄧㄡㄧㄢㄧㄣㄧㄤㄧㄥㄧㄦ") }
    ensures tones { flat_map (λ n. text_of (record { initial = 0; medial = 0; final = 1; tone = n })) (range_with_len 0 5)
        ≡ encode_utf8_all (codes "ㄚㄚ˙ㄚˊㄚˇㄚˋ") }
{}

/// ㄘㄜˋ is 10268, ㄕˋ is 8708 and ㄧㄚ, of the first tone, is 136, from their texts and back.
pub fn known_texts()
    ensures ce { syllable_reading (0xE3 ∷ (0x84 ∷ (0x98 ∷ (0xE3 ∷ (0x84 ∷ (0x9C ∷ (0xCB ∷ (0x8B ∷ [])))))))) ≡ Ok (parts_of 10268) }
    ensures shi { syllable_reading (0xE3 ∷ (0x84 ∷ (0x95 ∷ (0xCB ∷ (0x8B ∷ []))))) ≡ Ok (parts_of 8708) }
    ensures ya { syllable_reading (encode_utf8_all (codes "ㄧㄚ")) ≡ Ok (parts_of 136) }
    ensures code_of_ce { code_reading (encode_utf8_all (codes "ㄘㄜˋ")) ≡ Ok 10268 }
    ensures code_of_none { code_reading (encode_utf8_all (codes "ㄘㄜㄘ")) ≡ Err 6 }
    ensures text_of_ce { text_of (parts_of 10268) ≡ encode_utf8_all (codes "ㄘㄜˋ") }
    ensures text_of_shi { text_of (parts_of 8708) ≡ encode_utf8_all (codes "ㄕˋ") }
{}

/// The places of known texts that are no syllable: the empty text, a tone alone, a part after the tone, parts in the
/// wrong order, two parts of one kind, the mark of the first tone, the character 一 and bytes that aren't UTF-8.
pub fn known_places()
    ensures empty { syllable_reading [] ≡ Err 0 }
    ensures tone_alone { syllable_reading (encode_utf8_all (codes "ˊ")) ≡ Err 2 }
    ensures after_tone { syllable_reading (encode_utf8_all (codes "ˊㄅ")) ≡ Err 2 }
    ensures wrong_order { syllable_reading (encode_utf8_all (codes "ㄚㄅ")) ≡ Err 3 }
    ensures twice { syllable_reading (encode_utf8_all (codes "ㄅㄅ")) ≡ Err 3 }
    ensures first_tone_mark { syllable_reading (encode_utf8_all (0x3105 ∷ (0x311A ∷ (0x2C9 ∷ [])))) ≡ Err 6 }
    ensures one { syllable_reading (encode_utf8_all (codes "一")) ≡ Err 0 }
    ensures not_utf8 { syllable_reading (0xE3 ∷ (0x84 ∷ [])) ≡ Err 0 }
{}

/// A syllable and its text determine each other.
pub fn text_and_syllable()
    ensures read { (p : Parts) → IsTrue (is_syllable p) → syllable_reading (text_of p) ≡ Ok p }
    ensures text { (text : List ℕ) (p : Parts) → syllable_reading text ≡ Ok p → text_of p ≡ text }
    ensures valid { (text : List ℕ) (p : Parts) → syllable_reading text ≡ Ok p → IsTrue (is_syllable p) }
{}

/// The place of a refusal lies in the text or at its end, and before it stand the marks that could be read.
pub fn place_of_refusal()
    ensures within { (text : List ℕ) (place : ℕ) → syllable_reading text ≡ Err place → place ≤ length text }
    ensures before { (text : List ℕ) (place : ℕ) → syllable_reading text ≡ Err place → take place text ≡ text_of (front_parts text) }
{}

/// A code and the parts of a syllable determine each other.
pub fn code_and_parts()
    ensures parts { (p : Parts) → IsTrue (is_syllable p) → parts_of (code_of p) ≡ p }
    ensures code { (code : ℕ) → code_of (parts_of code) ≡ code }
    ensures is_code { (p : Parts) → IsTrue (is_syllable p) → IsTrue (is_code (code_of p)) }
    ensures greatest { (code : ℕ) → IsTrue (is_code code) → code ≤ 11244 }
{}

/// There are 6,155 syllables.
pub fn number_of_syllables()
    ensures { count_by is_code (range_with_len 0 11_245) ≡ 6155 }
{}
