//! Laws and known values of Hsu and ET26.

ghost use Rattle.std.specs.Prelude.{◌≡◌, ◌++◌, ◌∷◌, [], IsFalse, IsTrue, List, codes, encode_utf8_all, flat_map, map, ℕ};
ghost use Rattle.std.specs.List.{list_all, list_any, range_with_len};
ghost use Rattle.chew_spec_syllable.specs.Syllable.{is_code};
ghost use Rattle.chew_spec_layout.specs.LetterKeys.{letter_steps, read_text, repeated};
ghost use Rattle.chew_spec_layout.specs.Letters.{Et26, Hsu, Letters, are_held_letters, fed_letters, letter_columns, numbers_of};
ghost use Rattle.chew_spec_layout.specs.Step.{Erased, Kept, NotMine, Refused, Whole};
ghost use Rattle.chew_spec_layout.specs.Table.{Columns, has_key};

/// One letter on Hsu: ㄓˋ and ㄙ˙ by an initial that is a syllable by itself, ㄧ by a medial, ㄩ˙ by a medial and the
/// tone of ㄙ's letter, ㄜ and ㄦˇ by a final whose letter is an initial too; ㄅ alone is none.
#[tactic(auto, unfolding(crate::specs::Letters::fed_letters, crate::specs::Letters::reading_of))]
pub fn hsu_one_letter()
    ensures zhi { letter_steps (letter_columns Hsu) [] (codes "jj") ≡ Kept ∷ (Whole 7684 ∷ []) }
    ensures si { letter_steps (letter_columns Hsu) [] (codes "ss") ≡ Kept ∷ (Whole 10753 ∷ []) }
    ensures yi { letter_steps (letter_columns Hsu) [] (codes "e ") ≡ Kept ∷ (Whole 128 ∷ []) }
    ensures yu { letter_steps (letter_columns Hsu) [] (codes "us") ≡ Kept ∷ (Whole 385 ∷ []) }
    ensures e { letter_steps (letter_columns Hsu) [] (codes "g ") ≡ Kept ∷ (Whole 24 ∷ []) }
    ensures er { letter_steps (letter_columns Hsu) [] (codes "lf") ≡ Kept ∷ (Whole 107 ∷ []) }
    ensures none { letter_steps (letter_columns Hsu) [] (codes "b ") ≡ Kept ∷ (Refused ∷ []) }
{}

/// Two letters on Hsu: ㄐㄧˋ, ㄐㄩˋ and ㄓㄨˋ by the same letter before each medial, ㄘㄜˋ, ㄌㄥ and ㄙㄜ by an initial and a
/// final, ㄧㄝ and ㄧㄥ by a medial and a final.
#[tactic(auto, unfolding(crate::specs::Letters::fed_letters, crate::specs::Letters::reading_of))]
pub fn hsu_two_letters()
    ensures ji { letter_steps (letter_columns Hsu) [] (codes "jej") ≡ Kept ∷ (Kept ∷ (Whole 6276 ∷ [])) }
    ensures ju { letter_steps (letter_columns Hsu) [] (codes "juj") ≡ Kept ∷ (Kept ∷ (Whole 6532 ∷ [])) }
    ensures zhu { letter_steps (letter_columns Hsu) [] (codes "jxj") ≡ Kept ∷ (Kept ∷ (Whole 7940 ∷ [])) }
    ensures ce { letter_steps (letter_columns Hsu) [] (codes "agj") ≡ Kept ∷ (Kept ∷ (Whole 10268 ∷ [])) }
    ensures leng { letter_steps (letter_columns Hsu) [] (codes "ll ") ≡ Kept ∷ (Kept ∷ (Whole 4192 ∷ [])) }
    ensures se { letter_steps (letter_columns Hsu) [] (codes "sg ") ≡ Kept ∷ (Kept ∷ (Whole 10776 ∷ [])) }
    ensures ye { letter_steps (letter_columns Hsu) [] (codes "ee ") ≡ Kept ∷ (Kept ∷ (Whole 160 ∷ [])) }
    ensures ying { letter_steps (letter_columns Hsu) [] (codes "el ") ≡ Kept ∷ (Kept ∷ (Whole 224 ∷ [])) }
{}

/// Three letters on Hsu, ㄓㄨㄥ and ㄑㄩㄢˊ, and keys that can't stand: a second initial, a second final, a medial behind a
/// final, a fourth letter, and a tone where the letters are read as nothing.
#[tactic(auto, unfolding(crate::specs::Letters::fed_letters, crate::specs::Letters::reading_of))]
pub fn hsu_three_letters()
    ensures zhong { letter_steps (letter_columns Hsu) [] (codes "jxl ") ≡ Kept ∷ (Kept ∷ (Kept ∷ (Whole 8032 ∷ []))) }
    ensures quan { letter_steps (letter_columns Hsu) [] (codes "vumd") ≡ Kept ∷ (Kept ∷ (Kept ∷ (Whole 7114 ∷ []))) }
    ensures two_initials { letter_steps (letter_columns Hsu) [] (codes "bp") ≡ Kept ∷ (Refused ∷ []) }
    ensures two_finals { letter_steps (letter_columns Hsu) [] (codes "byw ") ≡ Kept ∷ (Kept ∷ (Refused ∷ (Whole 520 ∷ []))) }
    ensures no_order { letter_steps (letter_columns Hsu) [] (codes "byx") ≡ Kept ∷ (Kept ∷ (Refused ∷ [])) }
    ensures fourth { letter_steps (letter_columns Hsu) [] (codes "belw ") ≡ Kept ∷ (Kept ∷ (Kept ∷ (Refused ∷ (Whole 736 ∷ [])))) }
    ensures no_reading { letter_steps (letter_columns Hsu) [] (codes "dd") ≡ Kept ∷ (Refused ∷ []) }
{}

/// Other keys on Hsu: Space and Backspace with nothing held, `q` and a digit, which are no letters of it, and Backspace,
/// which takes the last letter, so that ㄐㄧ becomes ㄓ.
#[tactic(auto, unfolding(crate::specs::Letters::fed_letters, crate::specs::Letters::reading_of))]
pub fn hsu_other_keys()
    ensures space { letter_steps (letter_columns Hsu) [] (codes " ") ≡ NotMine ∷ [] }
    ensures backspace { letter_steps (letter_columns Hsu) [] (8 ∷ []) ≡ NotMine ∷ [] }
    ensures no_letters { letter_steps (letter_columns Hsu) [] (codes "qb1 ") ≡ NotMine ∷ (Kept ∷ (NotMine ∷ (Refused ∷ []))) }
    ensures erase { letter_steps (letter_columns Hsu) [] (106 ∷ (120 ∷ (108 ∷ (8 ∷ (8 ∷ (8 ∷ (8 ∷ [])))))))
        ≡ Kept ∷ (Kept ∷ (Kept ∷ (Erased ∷ (Erased ∷ (Erased ∷ (NotMine ∷ [])))))) }
    ensures erase_medial { letter_steps (letter_columns Hsu) [] (106 ∷ (101 ∷ (8 ∷ (106 ∷ [])))) ≡ Kept ∷ (Kept ∷ (Erased ∷ (Whole 7684 ∷ []))) }
{}

/// Syllables on ET26: ㄓ, ㄐㄧ, ㄐㄩˋ and ㄓㄨˋ by the same letter, ㄍㄨ and ㄑㄧ, ㄒㄧˋ and ㄕ, ㄖㄨˇ and ㄉㄚ˙ by initials whose
/// letters are tones too, ㄦ and ㄥ by finals alone.
#[tactic(auto, unfolding(crate::specs::Letters::fed_letters, crate::specs::Letters::reading_of))]
pub fn et26_syllables()
    ensures zhi { letter_steps (letter_columns Et26) [] (codes "g ") ≡ Kept ∷ (Whole 7680 ∷ []) }
    ensures ji { letter_steps (letter_columns Et26) [] (codes "ge ") ≡ Kept ∷ (Kept ∷ (Whole 6272 ∷ [])) }
    ensures ju { letter_steps (letter_columns Et26) [] (codes "guk") ≡ Kept ∷ (Kept ∷ (Whole 6532 ∷ [])) }
    ensures zhu { letter_steps (letter_columns Et26) [] (codes "gxk") ≡ Kept ∷ (Kept ∷ (Whole 7940 ∷ [])) }
    ensures gu { letter_steps (letter_columns Et26) [] (codes "vx ") ≡ Kept ∷ (Kept ∷ (Whole 4864 ∷ [])) }
    ensures qi { letter_steps (letter_columns Et26) [] (codes "ve ") ≡ Kept ∷ (Kept ∷ (Whole 6784 ∷ [])) }
    ensures xi { letter_steps (letter_columns Et26) [] (codes "cek") ≡ Kept ∷ (Kept ∷ (Whole 7300 ∷ [])) }
    ensures shi { letter_steps (letter_columns Et26) [] (codes "c ") ≡ Kept ∷ (Whole 8704 ∷ []) }
    ensures ru { letter_steps (letter_columns Et26) [] (codes "jxj") ≡ Kept ∷ (Kept ∷ (Whole 9475 ∷ [])) }
    ensures da { letter_steps (letter_columns Et26) [] (codes "dad") ≡ Kept ∷ (Kept ∷ (Whole 2569 ∷ [])) }
    ensures er { letter_steps (letter_columns Et26) [] (codes "h ") ≡ Kept ∷ (Whole 104 ∷ []) }
    ensures eng { letter_steps (letter_columns Et26) [] (codes "l ") ≡ Kept ∷ (Whole 96 ∷ []) }
{}

/// More on ET26: ㄘㄜˋ, ㄏㄥ and ㄅㄡ by an initial and a final, ㄧㄝ by a medial and a final, ㄘㄧㄝˋ by all three; ㄍ alone is
/// none, and its letter isn't ㄑ then, nor is ㄈ; a second initial, a fourth letter and a digit; Space and Backspace.
#[tactic(auto, unfolding(crate::specs::Letters::fed_letters, crate::specs::Letters::reading_of))]
pub fn et26_other_keys()
    ensures ce { letter_steps (letter_columns Et26) [] (codes "wrk") ≡ Kept ∷ (Kept ∷ (Whole 10268 ∷ [])) }
    ensures heng { letter_steps (letter_columns Et26) [] (codes "hl ") ≡ Kept ∷ (Kept ∷ (Whole 5728 ∷ [])) }
    ensures bou { letter_steps (letter_columns Et26) [] (codes "bp ") ≡ Kept ∷ (Kept ∷ (Whole 576 ∷ [])) }
    ensures ye { letter_steps (letter_columns Et26) [] (codes "ew ") ≡ Kept ∷ (Kept ∷ (Whole 160 ∷ [])) }
    ensures cie { letter_steps (letter_columns Et26) [] (codes "wewk") ≡ Kept ∷ (Kept ∷ (Kept ∷ (Whole 10404 ∷ []))) }
    ensures ge_alone { letter_steps (letter_columns Et26) [] (codes "v ") ≡ Kept ∷ (Refused ∷ []) }
    ensures fo_alone { letter_steps (letter_columns Et26) [] (codes "ff") ≡ Kept ∷ (Refused ∷ []) }
    ensures two_initials { letter_steps (letter_columns Et26) [] (codes "bv") ≡ Kept ∷ (Refused ∷ []) }
    ensures fourth { letter_steps (letter_columns Et26) [] (codes "bela ") ≡ Kept ∷ (Kept ∷ (Kept ∷ (Refused ∷ (Whole 736 ∷ [])))) }
    ensures no_letter { letter_steps (letter_columns Et26) [] (codes "g1 ") ≡ Kept ∷ (NotMine ∷ (Whole 7680 ∷ [])) }
    ensures space { letter_steps (letter_columns Et26) [] (codes " ") ≡ NotMine ∷ [] }
    ensures erase { letter_steps (letter_columns Et26) [] (103 ∷ (101 ∷ (8 ∷ (32 ∷ [])))) ≡ Kept ∷ (Kept ∷ (Erased ∷ (Whole 7680 ∷ []))) }
    ensures erase_all { letter_steps (letter_columns Et26) [] (103 ∷ (101 ∷ (8 ∷ (8 ∷ (8 ∷ []))))) ≡ Kept ∷ (Kept ∷ (Erased ∷ (Erased ∷ (NotMine ∷ [])))) }
{}

/// After a whole syllable nothing is held.
pub fn whole_empties()
    ensures { (columns : Columns) (held : List ℕ) (key code : ℕ) → (fed_letters columns held key).step ≡ Whole code → (fed_letters columns held key).held ≡ [] }
{}

/// A refused key and a key that isn't the layout's change nothing.
pub fn kept_otherwise()
    ensures refused { (columns : Columns) (held : List ℕ) (key : ℕ)
        → (fed_letters columns held key).step ≡ Refused → (fed_letters columns held key).held ≡ held }
    ensures not_mine { (columns : Columns) (held : List ℕ) (key : ℕ)
        → (fed_letters columns held key).step ≡ NotMine → (fed_letters columns held key).held ≡ held }
{}

/// What is held stays at most three of the layout's letters, and what is whole is a syllable.
pub fn held_are_letters()
    ensures stays { (columns : Columns) (held : List ℕ) (key : ℕ) → IsTrue (are_held_letters columns held)
        → IsTrue (are_held_letters columns (fed_letters columns held key).held) }
    ensures whole { (letters : Letters) (held : List ℕ) (key code : ℕ)
        → (fed_letters (letter_columns letters) held key).step ≡ Whole code → IsTrue (is_code code) }
{}

/// The letters that stand for two parts of a kind: of two initials one is always ㄐ, ㄑ or ㄒ, and Hsu's `l` alone has two
/// finals. So the rules on such letters leave no letter out.
pub fn shared_letters()
    ensures hsu_initials { repeated (letter_columns Hsu).initials ≡ codes "jvcjvc" }
    ensures hsu_j { numbers_of (letter_columns Hsu).initials 106 ≡ 12 ∷ (15 ∷ []) }
    ensures hsu_v { numbers_of (letter_columns Hsu).initials 118 ≡ 13 ∷ (16 ∷ []) }
    ensures hsu_c { numbers_of (letter_columns Hsu).initials 99 ≡ 14 ∷ (17 ∷ []) }
    ensures hsu_finals { repeated (letter_columns Hsu).finals ≡ codes "ll" }
    ensures hsu_l { numbers_of (letter_columns Hsu).finals 108 ≡ 12 ∷ (13 ∷ []) }
    ensures et26_initials { repeated (letter_columns Et26).initials ≡ codes "vgvcgc" }
    ensures et26_v { numbers_of (letter_columns Et26).initials 118 ≡ 9 ∷ (13 ∷ []) }
    ensures et26_g { numbers_of (letter_columns Et26).initials 103 ≡ 12 ∷ (15 ∷ []) }
    ensures et26_c { numbers_of (letter_columns Et26).initials 99 ≡ 14 ∷ (17 ∷ []) }
    ensures et26_finals { repeated (letter_columns Et26).finals ≡ [] }
    ensures medials { (letters : Letters) → repeated (letter_columns letters).medials ≡ [] }
    ensures tones { (letters : Letters) → repeated (letter_columns letters).tones ≡ [] }
{}

/// A tone's letter is an initial's, and never a medial's or a final's: with nothing held it can only be an initial.
pub fn tones_are_initials()
    ensures initial { (letters : Letters) → IsTrue (list_all (has_key (letter_columns letters).initials) (letter_columns letters).tones) }
    ensures no_medial { (letters : Letters) → IsFalse (list_any (has_key (letter_columns letters).medials) (letter_columns letters).tones) }
    ensures no_final { (letters : Letters) → IsFalse (list_any (has_key (letter_columns letters).finals) (letter_columns letters).tones) }
{}

/// Hsu's letters by rows of the keyboard: the initials before ㄨ, those that are others before ㄧ and ㄩ, the medials alone,
/// the finals behind ㄧ, and the tones of ㄧ.
pub fn hsu_keyboard()
    ensures upper_initials { flat_map (λ letter. read_text (letter_columns Hsu) (letter ∷ codes "x")) (codes "rtp") ≡ encode_utf8_all (codes "ㄖㄨㄊㄨㄆㄨ") }
    ensures home_initials { flat_map (λ letter. read_text (letter_columns Hsu) (letter ∷ codes "x")) (codes "asdfghjkl")
        ≡ encode_utf8_all (codes "ㄘㄨㄙㄨㄉㄨㄈㄨㄍㄨㄏㄨㄓㄨㄎㄨㄌㄨ") }
    ensures lower_initials { flat_map (λ letter. read_text (letter_columns Hsu) (letter ∷ codes "x")) (codes "zcvbnm")
        ≡ encode_utf8_all (codes "ㄗㄨㄕㄨㄔㄨㄅㄨㄋㄨㄇㄨ") }
    ensures before_i { flat_map (λ letter. read_text (letter_columns Hsu) (letter ∷ codes "e")) (codes "jcvbl") ≡ encode_utf8_all (codes "ㄐㄧㄒㄧㄑㄧㄅㄧㄌㄧ") }
    ensures before_yu { flat_map (λ letter. read_text (letter_columns Hsu) (letter ∷ codes "u")) (codes "jcvnl") ≡ encode_utf8_all (codes "ㄐㄩㄒㄩㄑㄩㄋㄩㄌㄩ") }
    ensures medials { flat_map (λ letter. read_text (letter_columns Hsu) (letter ∷ [])) (codes "eux") ≡ encode_utf8_all (codes "ㄧㄩㄨ") }
    ensures upper_finals { flat_map (λ letter. read_text (letter_columns Hsu) (codes "e" ++ letter ∷ [])) (codes "weyio")
        ≡ encode_utf8_all (codes "ㄧㄠㄧㄝㄧㄚㄧㄞㄧㄡ") }
    ensures home_finals { flat_map (λ letter. read_text (letter_columns Hsu) (codes "e" ++ letter ∷ [])) (codes "aghkl")
        ≡ encode_utf8_all (codes "ㄧㄟㄧㄜㄧㄛㄧㄤㄧㄥ") }
    ensures lower_finals { flat_map (λ letter. read_text (letter_columns Hsu) (codes "e" ++ letter ∷ [])) (codes "nm") ≡ encode_utf8_all (codes "ㄧㄣㄧㄢ") }
    ensures alone { read_text (letter_columns Hsu) (codes "l") ≡ encode_utf8_all (codes "ㄦ") }
    ensures tones { map (λ key. (fed_letters (letter_columns Hsu) (codes "e") key).step) (codes " sdfj") ≡ map Whole (range_with_len 128 5) }
{}

/// The same of ET26, which has ㄦ as a letter of its own.
pub fn et26_keyboard()
    ensures upper_initials { flat_map (λ letter. read_text (letter_columns Et26) (letter ∷ codes "x")) (codes "qwtyp") ≡ encode_utf8_all (codes "ㄗㄨㄘㄨㄊㄨㄔㄨㄆㄨ") }
    ensures home_initials { flat_map (λ letter. read_text (letter_columns Et26) (letter ∷ codes "x")) (codes "sdfghjkl")
        ≡ encode_utf8_all (codes "ㄙㄨㄉㄨㄈㄨㄓㄨㄏㄨㄖㄨㄎㄨㄌㄨ") }
    ensures lower_initials { flat_map (λ letter. read_text (letter_columns Et26) (letter ∷ codes "x")) (codes "cvbnm") ≡ encode_utf8_all (codes "ㄕㄨㄍㄨㄅㄨㄋㄨㄇㄨ") }
    ensures before_i { flat_map (λ letter. read_text (letter_columns Et26) (letter ∷ codes "e")) (codes "gcvbl") ≡ encode_utf8_all (codes "ㄐㄧㄒㄧㄑㄧㄅㄧㄌㄧ") }
    ensures before_yu { flat_map (λ letter. read_text (letter_columns Et26) (letter ∷ codes "u")) (codes "gcvnl") ≡ encode_utf8_all (codes "ㄐㄩㄒㄩㄑㄩㄋㄩㄌㄩ") }
    ensures medials { flat_map (λ letter. read_text (letter_columns Et26) (letter ∷ [])) (codes "eux") ≡ encode_utf8_all (codes "ㄧㄩㄨ") }
    ensures upper_finals { flat_map (λ letter. read_text (letter_columns Et26) (codes "e" ++ letter ∷ [])) (codes "qwrtiop")
        ≡ encode_utf8_all (codes "ㄧㄟㄧㄝㄧㄜㄧㄤㄧㄞㄧㄛㄧㄡ") }
    ensures home_finals { flat_map (λ letter. read_text (letter_columns Et26) (codes "e" ++ letter ∷ [])) (codes "ahl") ≡ encode_utf8_all (codes "ㄧㄚㄧㄦㄧㄥ") }
    ensures lower_finals { flat_map (λ letter. read_text (letter_columns Et26) (codes "e" ++ letter ∷ [])) (codes "znm") ≡ encode_utf8_all (codes "ㄧㄠㄧㄣㄧㄢ") }
    ensures tones { map (λ key. (fed_letters (letter_columns Et26) (codes "e") key).step) (codes " dfjk") ≡ map Whole (range_with_len 128 5) }
{}
