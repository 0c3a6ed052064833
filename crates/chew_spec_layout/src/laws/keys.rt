//! Which keys are a layout's, and known keys on each of the five layouts.

ghost use Rattle.std.specs.Prelude.{◌≡◌, ℕ, List, ◌∷◌, ◌++◌, codes, encode_utf8_all, IsTrue, IsFalse};
ghost use Rattle.chew_spec_syllable.specs.Syllable.{Parts};
ghost use Rattle.chew_spec_layout.specs.Keys.{all_keys};
ghost use Rattle.chew_spec_layout.specs.Layout.{ByLetters, BySpelling, feed, is_layout, new_layout, shown};
ghost use Rattle.chew_spec_layout.specs.Layout as layout;
ghost use Rattle.chew_spec_layout.specs.LayoutKeys.{after, own_keys};
ghost use Rattle.chew_spec_layout.specs.Letters.{fed_letters, Hsu, Et26};
ghost use Rattle.chew_spec_layout.specs.Pinyin.{fed_spelling, is_pinyin_letter, is_tone_key};
ghost use Rattle.chew_spec_layout.specs.Step.{Whole, Refused, Erased, NotMine};
ghost use Rattle.chew_spec_layout.specs.Table.{Columns, fed, has_key, is_held};

/// The keys of each layout among all bytes where nothing is held: those of its columns, and the letters of Pinyin.
pub fn keys_of_an_empty_layout()
    ensures standard { own_keys (new_layout layout.Standard) ≡ codes ",-./0123456789;abcdefghijklmnopqrstuvwxyz" }
    ensures eten { own_keys (new_layout layout.Eten) ≡ codes "',-./01234789;=abcdefghijklmnopqrstuvwxyz" }
    ensures hsu { own_keys (new_layout layout.Hsu) ≡ codes "abcdefghijklmnoprstuvwxyz" }
    ensures et26 { own_keys (new_layout layout.Et26) ≡ codes "abcdefghijklmnopqrstuvwxyz" }
    ensures pinyin { own_keys (new_layout layout.Pinyin) ≡ codes "abcdefghijklmnopqrstuvwxyz" }
{}

/// Where something is held, Backspace and Space are keys of each layout too, and the digits of the tones are Pinyin's.
pub fn keys_of_a_layout_that_holds()
    ensures standard { own_keys (after (new_layout layout.Standard) (codes "8")) ≡ 8 ∷ codes " ,-./0123456789;abcdefghijklmnopqrstuvwxyz" }
    ensures eten { own_keys (after (new_layout layout.Eten) (codes "a")) ≡ 8 ∷ codes " ',-./01234789;=abcdefghijklmnopqrstuvwxyz" }
    ensures hsu { own_keys (after (new_layout layout.Hsu) (codes "a")) ≡ 8 ∷ codes " abcdefghijklmnoprstuvwxyz" }
    ensures et26 { own_keys (after (new_layout layout.Et26) (codes "a")) ≡ 8 ∷ codes " abcdefghijklmnopqrstuvwxyz" }
    ensures pinyin { own_keys (after (new_layout layout.Pinyin) (codes "a")) ≡ 8 ∷ codes " 12345abcdefghijklmnopqrstuvwxyz" }
{}

/// A key that stands in no column, and is neither Space nor Backspace, isn't the layout's, whatever is held; and so it is
/// on Pinyin with a key that is neither a letter nor a tone's.
pub fn other_keys()
    ensures table { (columns : Columns) (held : Parts) (key : ℕ) → IsFalse (has_key (all_keys columns) key)
        → (key ≡ 32 → ⊥) → (key ≡ 8 → ⊥) → fed columns held key ≡ record { step = NotMine; held = held } }
    ensures letters { (columns : Columns) (held : List ℕ) (key : ℕ) → IsFalse (has_key (all_keys columns) key)
        → (key ≡ 32 → ⊥) → (key ≡ 8 → ⊥) → fed_letters columns held key ≡ record { step = NotMine; held = held } }
    ensures pinyin { (held : List ℕ) (key : ℕ) → IsFalse (is_pinyin_letter key) → IsFalse (is_tone_key key)
        → (key ≡ 8 → ⊥) → fed_spelling held key ≡ record { step = NotMine; held = held } }
{}

/// ㄘㄜˋ on each layout but Eten, which has ㄗㄜˋ: what the keys before the tone's show, and the syllable that the tone's
/// makes.
pub fn known_syllables()
    ensures standard_shows { shown (after (new_layout layout.Standard) (codes "hk")) ≡ encode_utf8_all (codes "ㄘㄜ") }
    ensures standard { (feed (after (new_layout layout.Standard) (codes "hk")) 52).step ≡ Whole 10268 }
    ensures eten_shows { shown (after (new_layout layout.Eten) (codes ";r")) ≡ encode_utf8_all (codes "ㄗㄜ") }
    ensures eten { (feed (after (new_layout layout.Eten) (codes ";r")) 52).step ≡ Whole 9756 }
    ensures hsu_shows { shown (after (new_layout layout.Hsu) (codes "ag")) ≡ codes "ag" }
    ensures hsu { (feed (after (new_layout layout.Hsu) (codes "ag")) 106).step ≡ Whole 10268 }
    ensures et26_shows { shown (after (new_layout layout.Et26) (codes "wr")) ≡ codes "wr" }
    ensures et26 { (feed (after (new_layout layout.Et26) (codes "wr")) 107).step ≡ Whole 10268 }
    ensures pinyin_shows { shown (after (new_layout layout.Pinyin) (codes "ce")) ≡ codes "ce" }
    ensures pinyin { (feed (after (new_layout layout.Pinyin) (codes "ce")) 52).step ≡ Whole 10268 }
{}

/// Keys that each layout refuses, and that leave it as it was: a tone with nothing held, a second initial, and a tone
/// where the letters spell nothing.
pub fn known_refusals()
    ensures standard { feed (new_layout layout.Standard) 52 ≡ record { step = Refused; layout = new_layout layout.Standard } }
    ensures eten { feed (new_layout layout.Eten) 52 ≡ record { step = Refused; layout = new_layout layout.Eten } }
    ensures hsu { feed (after (new_layout layout.Hsu) (codes "b")) 112 ≡ record { step = Refused; layout = ByLetters Hsu (codes "b") } }
    ensures et26 { feed (after (new_layout layout.Et26) (codes "b")) 118 ≡ record { step = Refused; layout = ByLetters Et26 (codes "b") } }
    ensures pinyin { feed (after (new_layout layout.Pinyin) (codes "b")) 52 ≡ record { step = Refused; layout = BySpelling (codes "b") } }
{}

/// Backspace on each layout takes the last part or letter alone.
pub fn known_erasing()
    ensures standard { feed (after (new_layout layout.Standard) (codes "hk")) 8
        ≡ record { step = Erased; layout = after (new_layout layout.Standard) (codes "h") } }
    ensures eten { feed (after (new_layout layout.Eten) (codes ";r")) 8 ≡ record { step = Erased; layout = after (new_layout layout.Eten) (codes ";") } }
    ensures hsu { feed (after (new_layout layout.Hsu) (codes "ag")) 8 ≡ record { step = Erased; layout = ByLetters Hsu (codes "a") } }
    ensures et26 { feed (after (new_layout layout.Et26) (codes "wr")) 8 ≡ record { step = Erased; layout = ByLetters Et26 (codes "w") } }
    ensures pinyin { feed (after (new_layout layout.Pinyin) (codes "ce")) 8 ≡ record { step = Erased; layout = BySpelling (codes "c") } }
{}

/// What a layout may hold: parts up to the last of each kind and no tone, at most three letters of the layout, and at
/// most six letters.
pub fn known_ranges()
    ensures last_parts { IsTrue (is_held (record { initial = 21; medial = 3; final = 13; tone = 0 })) }
    ensures initial { IsFalse (is_held (record { initial = 22; medial = 3; final = 13; tone = 0 })) }
    ensures medial { IsFalse (is_held (record { initial = 21; medial = 4; final = 13; tone = 0 })) }
    ensures last_final { IsFalse (is_held (record { initial = 21; medial = 3; final = 14; tone = 0 })) }
    ensures tone { IsFalse (is_held (record { initial = 21; medial = 3; final = 13; tone = 1 })) }
    ensures three { IsTrue (is_layout (ByLetters Hsu (codes "bel"))) }
    ensures four { IsFalse (is_layout (ByLetters Hsu (codes "bell"))) }
    ensures no_letter { IsFalse (is_layout (ByLetters Hsu (codes "q"))) }
    ensures other_layout { IsTrue (is_layout (ByLetters Et26 (codes "q"))) }
    ensures six { IsTrue (is_layout (BySpelling (codes "zhuang"))) }
    ensures seven { IsFalse (is_layout (BySpelling (codes "zhuangg"))) }
    ensures capital { IsFalse (is_layout (BySpelling (codes "A"))) }
{}
