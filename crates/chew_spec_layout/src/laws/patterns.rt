//! How Hsu and ET26 read the letters that are held.

ghost use Rattle.std.specs.Prelude.{◌≡◌, ℕ, List, [], ◌∷◌, Some, None, codes, encode_utf8_all, filter, flat_map};
ghost use Rattle.std.specs.List.{range_with_len};
ghost use Rattle.chew_spec_syllable.specs.Syllable.{Parts};
ghost use Rattle.chew_spec_layout.specs.LetterKeys.{IsFirstReading, IsReading, et26_rests, hsu_rests, letter_steps, pattern_text, read_text, read_with};
ghost use Rattle.chew_spec_layout.specs.Letters.{Et26, Hsu, is_reading, letter_columns, reading_of, takings};
ghost use Rattle.chew_spec_layout.specs.Step.{Kept, Whole};
ghost use Rattle.chew_spec_layout.specs.Table.{Columns};

/// The patterns of letters, each as what is taken for an initial, a medial and a final: three for one letter and three
/// for two, in this order, and one for three letters.
pub fn known_patterns()
    ensures none { takings [] ≡ [] }
    ensures one { flat_map pattern_text (takings (codes "a")) ≡ codes "a---a---a" }
    ensures two { flat_map pattern_text (takings (codes "ab")) ≡ codes "ab-a-b-ab" }
    ensures three { flat_map pattern_text (takings (codes "abc")) ≡ codes "abc" }
    ensures four { takings (codes "abcd") ≡ [] }
{}

/// Letters are read as the first of their patterns that fits and is valid: none before it fits and is valid, and where
/// they are read as nothing, none of them.
pub fn first_that_fits()
    ensures found { (columns : Columns) (held : List ℕ) (parts : Parts)
        → reading_of columns held ≡ Some parts → (place : ℕ) × IsFirstReading columns (takings held) place parts }
    ensures back { (columns : Columns) (held : List ℕ) (place : ℕ) (parts : Parts)
        → IsFirstReading columns (takings held) place parts → reading_of columns held ≡ Some parts }
    ensures none { (columns : Columns) (held : List ℕ) → reading_of columns held ≡ None
        → (place : ℕ) (parts : Parts) → IsReading columns (takings held) place parts → ⊥ }
{}

/// An initial alone is valid exactly where it is one of the seven from ㄓ to ㄙ; a medial or a final is valid, with an
/// initial or without.
pub fn valid_readings()
    ensures initials { filter (λ n. is_reading (record { initial = n; medial = 0; final = 0; tone = 0 })) (range_with_len 0 22) ≡ range_with_len 15 7 }
    ensures medials { filter (λ n. is_reading (record { initial = 0; medial = n; final = 0; tone = 0 })) (range_with_len 0 4) ≡ range_with_len 1 3 }
    ensures finals { filter (λ n. is_reading (record { initial = 1; medial = 0; final = n; tone = 0 })) (range_with_len 0 14) ≡ range_with_len 1 13 }
{}

/// Each letter alone, from a to z: ㄘ and ㄕ come before the finals of their letters, ㄧ before ㄝ, and where the initial
/// isn't valid the final counts, as ㄜ of ㄍ's letter and ㄦ of ㄌ's.
pub fn letters_alone()
    ensures hsu { flat_map (λ letter. read_text (letter_columns Hsu) (letter ∷ [])) (range_with_len 97 26)
        ≡ encode_utf8_all (codes "ㄘ-ㄕ-ㄧ-ㄜㄛㄞㄓㄤㄦㄢㄣㄡ--ㄖㄙ-ㄩㄔㄠㄨㄚㄗ") }
    ensures et26 { flat_map (λ letter. read_text (letter_columns Et26) (letter ∷ [])) (range_with_len 97 26)
        ≡ encode_utf8_all (codes "ㄚ-ㄕ-ㄧ-ㄓㄦㄞㄖ-ㄥㄢㄣㄛㄡㄗㄜㄙㄤㄩ-ㄘㄨㄔㄠ") }
{}

/// The same with Space: ㄘ, ㄖ and ㄗ on Hsu, and ㄗ and ㄘ on ET26, though some of their letters are finals too.
#[tactic(auto, unfolding(crate::specs::Letters::fed_letters, crate::specs::Letters::reading_of))]
pub fn letters_alone_with_space()
    ensures hsu_ci { letter_steps (letter_columns Hsu) [] (codes "a ") ≡ Kept ∷ (Whole 10240 ∷ []) }
    ensures hsu_ri { letter_steps (letter_columns Hsu) [] (codes "r ") ≡ Kept ∷ (Whole 9216 ∷ []) }
    ensures hsu_zi { letter_steps (letter_columns Hsu) [] (codes "z ") ≡ Kept ∷ (Whole 9728 ∷ []) }
    ensures et26_zi { letter_steps (letter_columns Et26) [] (codes "q ") ≡ Kept ∷ (Whole 9728 ∷ []) }
    ensures et26_ci { letter_steps (letter_columns Et26) [] (codes "w ") ≡ Kept ∷ (Whole 10240 ∷ []) }
{}

/// A letter with two initials before ㄧ, ㄨ and ㄩ, before ㄤ, ㄧㄤ and ㄨㄤ: it is ㄐ, ㄑ or ㄒ exactly
/// where the medial is ㄧ or ㄩ.
pub fn letters_of_two_initials()
    ensures hsu_j { read_with (letter_columns Hsu) (codes "j") hsu_rests ≡ encode_utf8_all (codes "ㄐㄧㄓㄨㄐㄩㄓㄤㄐㄧㄤㄓㄨㄤ") }
    ensures hsu_v { read_with (letter_columns Hsu) (codes "v") hsu_rests ≡ encode_utf8_all (codes "ㄑㄧㄔㄨㄑㄩㄔㄤㄑㄧㄤㄔㄨㄤ") }
    ensures hsu_c { read_with (letter_columns Hsu) (codes "c") hsu_rests ≡ encode_utf8_all (codes "ㄒㄧㄕㄨㄒㄩㄕㄤㄒㄧㄤㄕㄨㄤ") }
    ensures et26_g { read_with (letter_columns Et26) (codes "g") et26_rests ≡ encode_utf8_all (codes "ㄐㄧㄓㄨㄐㄩㄓㄤㄐㄧㄤㄓㄨㄤ") }
    ensures et26_v { read_with (letter_columns Et26) (codes "v") et26_rests ≡ encode_utf8_all (codes "ㄑㄧㄍㄨㄑㄩㄍㄤㄑㄧㄤㄍㄨㄤ") }
    ensures et26_c { read_with (letter_columns Et26) (codes "c") et26_rests ≡ encode_utf8_all (codes "ㄒㄧㄕㄨㄒㄩㄕㄤㄒㄧㄤㄕㄨㄤ") }
{}
