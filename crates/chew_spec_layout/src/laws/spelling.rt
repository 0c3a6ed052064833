//! Laws and known values of Pinyin.

ghost use Rattle.std.specs.Prelude.{◌≡◌, ℕ, ◌++◌, List, [], ◌∷◌, IsTrue, IfSome, Some, codes};
ghost use Rattle.chew_spec_syllable.specs.Syllable.{is_code, parts_of};
ghost use Rattle.chew_spec_syllable.specs.SyllableText.{mark_text, text_of, tone_marks};
ghost use Rattle.chew_spec_layout.specs.SpellingKeys.{IsSpelled, no_spelling_twice, spelling_steps};
ghost use Rattle.chew_spec_layout.specs.Spelling.{Spelling};
ghost use Rattle.chew_spec_layout.specs.Spellings.{spelling_of, spellings};
ghost use Rattle.chew_spec_layout.specs.Pinyin.{fed_spelling, is_held_spelling, tone_of};
ghost use Rattle.chew_spec_layout.specs.Step.{Step, Kept, Whole, Refused, Erased, NotMine};

/// Known syllables without an initial: ㄦˊ, ㄧㄠˇ, ㄨㄥ and ㄩㄥˋ.
pub fn known_alone()
    ensures er { spelling_steps [] (codes "er2") ≡ Kept ∷ (Kept ∷ (Whole 106 ∷ [])) }
    ensures yao { spelling_steps [] (codes "yao3") ≡ Kept ∷ (Kept ∷ (Kept ∷ (Whole 187 ∷ []))) }
    ensures weng { spelling_steps [] (codes "weng ") ≡ Kept ∷ (Kept ∷ (Kept ∷ (Kept ∷ (Whole 352 ∷ [])))) }
    ensures yong { spelling_steps [] (codes "yong4") ≡ Kept ∷ (Kept ∷ (Kept ∷ (Kept ∷ (Whole 484 ∷ [])))) }
{}

/// Known syllables with an initial and each kind of ending: ㄘㄜˋ, ㄌㄧㄡˊ, ㄍㄨㄥ, ㄓㄨㄤˋ, ㄓ, ㄖˋ, ㄋㄩˇ, ㄌㄩㄝˋ in
/// two ways, ㄌㄩˋ, ㄒㄩˊ, ㄐㄩㄝˊ and ㄑㄩㄥˊ.
pub fn known_endings()
    ensures ce { spelling_steps [] (codes "ce4") ≡ Kept ∷ (Kept ∷ (Whole 10268 ∷ [])) }
    ensures liu { spelling_steps [] (codes "liu2") ≡ Kept ∷ (Kept ∷ (Kept ∷ (Whole 4290 ∷ []))) }
    ensures gong { spelling_steps [] (codes "gong1") ≡ Kept ∷ (Kept ∷ (Kept ∷ (Kept ∷ (Whole 4960 ∷ [])))) }
    ensures zhuang { spelling_steps [] (codes "zhuang4") ≡ Kept ∷ (Kept ∷ (Kept ∷ (Kept ∷ (Kept ∷ (Kept ∷ (Whole 8028 ∷ [])))))) }
    ensures zhi { spelling_steps [] (codes "zhi1") ≡ Kept ∷ (Kept ∷ (Kept ∷ (Whole 7680 ∷ []))) }
    ensures ri { spelling_steps [] (codes "ri4") ≡ Kept ∷ (Kept ∷ (Whole 9220 ∷ [])) }
    ensures nv { spelling_steps [] (codes "nv3") ≡ Kept ∷ (Kept ∷ (Whole 3971 ∷ [])) }
    ensures lue { spelling_steps [] (codes "lue4") ≡ Kept ∷ (Kept ∷ (Kept ∷ (Whole 4516 ∷ []))) }
    ensures lve { spelling_steps [] (codes "lve4") ≡ Kept ∷ (Kept ∷ (Kept ∷ (Whole 4516 ∷ []))) }
    ensures lv { spelling_steps [] (codes "lv4") ≡ Kept ∷ (Kept ∷ (Whole 4484 ∷ [])) }
    ensures xu { spelling_steps [] (codes "xu2") ≡ Kept ∷ (Kept ∷ (Whole 7554 ∷ [])) }
    ensures jue { spelling_steps [] (codes "jue2") ≡ Kept ∷ (Kept ∷ (Kept ∷ (Whole 6562 ∷ []))) }
    ensures qiong { spelling_steps [] (codes "qiong2") ≡ Kept ∷ (Kept ∷ (Kept ∷ (Kept ∷ (Kept ∷ (Whole 7138 ∷ []))))) }
{}

/// The tones of ㄇㄚ: Space and 1 to 5 make ㄇㄚ, ㄇㄚ, ㄇㄚˊ, ㄇㄚˇ, ㄇㄚˋ and ㄇㄚ˙.
pub fn known_tones()
    ensures { spelling_steps [] (codes "ma ma1ma2ma3ma4ma5") ≡ Kept ∷ (Kept ∷ (Whole 1544 ∷ (Kept ∷ (Kept ∷ (Whole 1544 ∷ (Kept ∷ (Kept
        ∷ (Whole 1546 ∷ (Kept ∷ (Kept ∷ (Whole 1547 ∷ (Kept ∷ (Kept ∷ (Whole 1548 ∷ (Kept ∷ (Kept ∷ (Whole 1545 ∷ []))))))))))))))))) }
{}

/// What is refused: letters that are no spelling, until the wrong one is erased, `v` behind ㄐ, an initial alone, and a
/// seventh letter, which doesn't spoil the six.
pub fn known_refusals()
    ensures bue { spelling_steps [] (codes "bue4" ++ 8 ∷ codes "4") ≡ Kept ∷ (Kept ∷ (Kept ∷ (Refused ∷ (Erased ∷ (Whole 772 ∷ []))))) }
    ensures jv { spelling_steps [] (codes "jv ") ≡ Kept ∷ (Kept ∷ (Refused ∷ [])) }
    ensures zh { spelling_steps [] (codes "zh1") ≡ Kept ∷ (Kept ∷ (Refused ∷ [])) }
    ensures seventh { spelling_steps [] (codes "zhuangg4") ≡ Kept ∷ (Kept ∷ (Kept ∷ (Kept ∷ (Kept ∷ (Kept ∷ (Refused ∷ (Whole 8028 ∷ []))))))) }
{}

/// Backspace takes one letter after another. With nothing held it isn't Pinyin's, and neither are a digit and Space; with
/// letters held other keys aren't, as 0, 6 and a capital.
pub fn known_others()
    ensures erase { spelling_steps [] (109 ∷ (97 ∷ (8 ∷ (8 ∷ (8 ∷ []))))) ≡ Kept ∷ (Kept ∷ (Erased ∷ (Erased ∷ (NotMine ∷ [])))) }
    ensures nothing_held { spelling_steps [] (codes "15 ;A") ≡ NotMine ∷ (NotMine ∷ (NotMine ∷ (NotMine ∷ (NotMine ∷ [])))) }
    ensures others { spelling_steps [] (codes "a06A`{ ") ≡ Kept ∷ (NotMine ∷ (NotMine ∷ (NotMine ∷ (NotMine ∷ (NotMine ∷ (Whole 8 ∷ [])))))) }
{}

/// The spelling that letters are has those letters, and its marks are the text of a syllable in the first tone.
pub fn marks_are_a_syllable()
    ensures { (held : List ℕ) → IfSome (spelling_of held) (IsSpelled held) }
{}

/// The text of what is whole is the spelling's marks and the mark of the tone.
pub fn whole_is_spelled()
    ensures { (held : List ℕ) (key code : ℕ) (spelling : Spelling) → spelling_of held ≡ Some spelling
        → (fed_spelling held key).step ≡ Whole code → text_of (parts_of code) ≡ spelling.marks ++ mark_text tone_marks (tone_of key) }
{}

/// After a whole syllable nothing is held.
pub fn whole_empties()
    ensures { (held : List ℕ) (key code : ℕ) → (fed_spelling held key).step ≡ Whole code → (fed_spelling held key).held ≡ [] }
{}

/// A refused key and a key that isn't the layout's change nothing.
pub fn kept_otherwise()
    ensures refused { (held : List ℕ) (key : ℕ) → (fed_spelling held key).step ≡ Refused → (fed_spelling held key).held ≡ held }
    ensures not_mine { (held : List ℕ) (key : ℕ) → (fed_spelling held key).step ≡ NotMine → (fed_spelling held key).held ≡ held }
{}

/// What is held stays letters, and at most six; what is whole is a syllable.
pub fn held_in_range()
    ensures stays { (held : List ℕ) (key : ℕ) → IsTrue (is_held_spelling held) → IsTrue (is_held_spelling (fed_spelling held key).held) }
    ensures whole { (held : List ℕ) (key code : ℕ) → (fed_spelling held key).step ≡ Whole code → IsTrue (is_code code) }
{}
