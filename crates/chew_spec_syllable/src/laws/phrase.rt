//! Laws and known values of phrases.

ghost use Rattle.std.specs.Prelude.{◌≡◌, ℕ, ◌<◌, ◌≤◌, List, [], ◌∷◌, length, take, filter, not, ◌++◌, IsTrue, IsFalse, encode_utf8_all, codes};
ghost use Rattle.std.specs.List.{range_with_len};
ghost use Rattle.chew_spec_syllable.specs.Phrase.{begins_phrase, is_allowed, is_phrase, phrase_end};

/// Characters that may and may not stand in a phrase: none below U+00A1, and white space nowhere; the space of no width
/// and the mark of the byte order aren't white space.
pub fn known_characters()
    ensures below { filter is_allowed (range_with_len 0 0xA1) ≡ [] }
    ensures inverted_mark { IsTrue (is_allowed 0xA1) }
    ensures ogham_space { IsFalse (is_allowed 0x1680) }
    ensures general_spaces { filter (λ character. not (is_allowed character)) (range_with_len 0x1FF0 0x71)
        ≡ range_with_len 0x2000 11 ++ (0x2028 ∷ (0x2029 ∷ (0x202F ∷ (0x205F ∷ [])))) }
    ensures zero_width_space { IsTrue (is_allowed 0x200B) }
    ensures wide_space { IsFalse (is_allowed 0x3000) }
    ensures byte_order_mark { IsTrue (is_allowed 0xFEFF) }
    ensures greatest { IsTrue (is_allowed 0x10FFFF) }
{}

/// Known phrases, and where the phrase ends in texts that are none: at the twelfth character, a letter, a wide space and
/// a character that is cut.
pub fn known_phrases()
    ensures one { IsTrue (is_phrase (0xE6 ∷ (0xB8 ∷ (0xAC ∷ [])))) }
    ensures eleven { IsTrue (is_phrase (encode_utf8_all (codes "測測測測測測測測測測測"))) }
    ensures twelve { IsFalse (is_phrase (encode_utf8_all (codes "測測測測測測測測測測測測"))) }
    ensures twelfth { phrase_end (encode_utf8_all (codes "測測測測測測測測測測測測")) ≡ 33 }
    ensures empty { IsFalse (is_phrase []) }
    ensures letter { phrase_end (encode_utf8_all (codes "測a試")) ≡ 3 }
    ensures wide_space { phrase_end (encode_utf8_all (0x6E2C ∷ (0x8A66 ∷ (0x3000 ∷ [])))) ≡ 6 }
    ensures cut { phrase_end (0xE6 ∷ (0xB8 ∷ (0xAC ∷ (0xE8 ∷ (0xA9 ∷ []))))) ≡ 3 }
{}

/// A phrase is a text that isn't empty and that the longest front of at most 11 allowed characters reaches to the end.
pub fn phrase_is_whole()
    ensures reaches_end { (text : List ℕ) → IsTrue (is_phrase text) → phrase_end text ≡ length text }
    ensures nonempty { (text : List ℕ) → IsTrue (is_phrase text) → 0 < length text }
    ensures back { (text : List ℕ) → phrase_end text ≡ length text → 0 < length text → IsTrue (is_phrase text) }
{}

/// The front before a phrase's end is of at most 11 allowed characters, and no longer front is.
pub fn phrase_end_is_longest()
    ensures within { (text : List ℕ) → phrase_end text ≤ length text }
    ensures begins { (text : List ℕ) → IsTrue (begins_phrase (take (phrase_end text) text)) }
    ensures longest { (text : List ℕ) (n : ℕ) → n ≤ length text → IsTrue (begins_phrase (take n text)) → n ≤ phrase_end text }
{}
