//! Laws and known values of the default layout and Eten.

ghost use Rattle.std.specs.Prelude.{◌≡◌, ℕ, List, [], ◌∷◌, IsTrue, map, flat_map, codes, encode_utf8_all};
ghost use Rattle.std.specs.List.{range_with_len};
ghost use Rattle.chew_spec_syllable.specs.Syllable.{Parts, is_code};
ghost use Rattle.chew_spec_layout.specs.Step.{Step, Kept, Whole, Refused, Erased, NotMine};
ghost use Rattle.chew_spec_layout.specs.Table.{Columns, Table, columns_of, has_key, fed, nothing_held, holds_something, Standard, Eten, is_held};
ghost use Rattle.chew_spec_layout.specs.Keys.{no_key_twice, all_keys, mark_of, toned, steps};

/// What the keys of known syllables do from nothing held: ㄘㄜˋ, ㄕˋ, ㄒㄧㄤˋ in two orders,
/// Space, a tone alone and Backspace on the default layout, and ㄗㄜˋ on Eten.
pub fn known_steps()
    ensures ce { steps (columns_of Standard) nothing_held (codes "hk4") ≡ Kept ∷ (Kept ∷ (Whole 10268 ∷ [])) }
    ensures shi { steps (columns_of Standard) nothing_held (codes "g4") ≡ Kept ∷ (Whole 8708 ∷ []) }
    ensures space { steps (columns_of Standard) nothing_held (codes " ") ≡ NotMine ∷ [] }
    ensures first_tone { steps (columns_of Standard) nothing_held (codes "hk ") ≡ Kept ∷ (Kept ∷ (Whole 10264 ∷ [])) }
    ensures tone_alone { steps (columns_of Standard) nothing_held (codes "4") ≡ Refused ∷ [] }
    ensures erase { steps (columns_of Standard) nothing_held (104 ∷ (107 ∷ (8 ∷ (8 ∷ (8 ∷ []))))) ≡ Kept ∷ (Kept ∷ (Erased ∷ (Erased ∷ (NotMine ∷ [])))) }
    ensures all_parts { steps (columns_of Standard) nothing_held (codes "vu;4") ≡ Kept ∷ (Kept ∷ (Kept ∷ (Whole 7388 ∷ []))) }
    ensures any_order { steps (columns_of Standard) nothing_held (codes ";vu4") ≡ Kept ∷ (Kept ∷ (Kept ∷ (Whole 7388 ∷ []))) }
    ensures eten { steps (columns_of Eten) nothing_held (codes ";r4") ≡ Kept ∷ (Kept ∷ (Whole 9756 ∷ [])) }
{}

/// No key of a layout stands for two parts.
pub fn no_shared_key()
    ensures standard { IsTrue (no_key_twice (all_keys (columns_of Standard))) }
    ensures eten { IsTrue (no_key_twice (all_keys (columns_of Eten))) }
{}

/// Each key of the default layout sets the part whose number is its place in its column; with ㄅ held, each tone's
/// key makes ㄅ with that tone.
pub fn standard_numbers()
    ensures initials { map (λ key. (fed (columns_of Standard) nothing_held key).held.initial) (columns_of Standard).initials ≡ range_with_len 1 21 }
    ensures medials { map (λ key. (fed (columns_of Standard) nothing_held key).held.medial) (columns_of Standard).medials ≡ range_with_len 1 3 }
    ensures finals { map (λ key. (fed (columns_of Standard) nothing_held key).held.final) (columns_of Standard).finals ≡ range_with_len 1 13 }
    ensures tones { map (λ key. (fed (columns_of Standard) (record { initial = 1; medial = 0; final = 0; tone = 0 }) key).step) (columns_of Standard).tones
        ≡ map Whole (range_with_len 513 4) }
{}

/// The same of Eten.
pub fn eten_numbers()
    ensures initials { map (λ key. (fed (columns_of Eten) nothing_held key).held.initial) (columns_of Eten).initials ≡ range_with_len 1 21 }
    ensures medials { map (λ key. (fed (columns_of Eten) nothing_held key).held.medial) (columns_of Eten).medials ≡ range_with_len 1 3 }
    ensures finals { map (λ key. (fed (columns_of Eten) nothing_held key).held.final) (columns_of Eten).finals ≡ range_with_len 1 13 }
    ensures tones { map (λ key. (fed (columns_of Eten) (record { initial = 1; medial = 0; final = 0; tone = 0 }) key).step) (columns_of Eten).tones
        ≡ map Whole (range_with_len 513 4) }
{}

/// After a whole syllable nothing is held.
pub fn whole_empties()
    ensures { (columns : Columns) (held : Parts) (key code : ℕ) → (fed columns held key).step ≡ Whole code → (fed columns held key).held ≡ nothing_held }
{}

/// A refused key and a key that isn't the layout's change nothing.
pub fn kept_otherwise()
    ensures refused { (columns : Columns) (held : Parts) (key : ℕ) → (fed columns held key).step ≡ Refused → (fed columns held key).held ≡ held }
    ensures not_mine { (columns : Columns) (held : Parts) (key : ℕ) → (fed columns held key).step ≡ NotMine → (fed columns held key).held ≡ held }
{}

/// Of two keys for parts of one kind, one after the other, the last counts. What the layouts' columns need for it,
/// `no_shared_key` says.
pub fn last_counts()
    ensures initials { (columns : Columns) (held : Parts) (first second : ℕ) → IsTrue (has_key columns.initials first)
        → IsTrue (has_key columns.initials second) → fed columns (fed columns held first).held second ≡ fed columns held second }
    ensures medials { (columns : Columns) (held : Parts) (first second : ℕ) → IsTrue (no_key_twice (all_keys columns))
        → IsTrue (has_key columns.medials first) → IsTrue (has_key columns.medials second)
        → fed columns (fed columns held first).held second ≡ fed columns held second }
    ensures finals { (columns : Columns) (held : Parts) (first second : ℕ) → IsTrue (no_key_twice (all_keys columns)) → IsTrue (has_key columns.finals first)
        → IsTrue (has_key columns.finals second) → fed columns (fed columns held first).held second ≡ fed columns held second }
{}

/// What a layout holds stays in the range of its parts, and what it makes whole is a syllable.
pub fn held_in_range()
    ensures stays { (table : Table) (held : Parts) (key : ℕ) → IsTrue (is_held held) → IsTrue (is_held (fed (columns_of table) held key).held) }
    ensures whole { (table : Table) (held : Parts) (key code : ℕ) → IsTrue (is_held held)
        → (fed (columns_of table) held key).step ≡ Whole code → IsTrue (is_code code) }
{}

/// Where a key was kept, something is held.
pub fn kept_is_held()
    ensures { (columns : Columns) (held : Parts) (key : ℕ) → (fed columns held key).step ≡ Kept → IsTrue (holds_something (fed columns held key).held) }
{}

/// The default layout, row by row of the keyboard.
pub fn standard_keyboard()
    ensures digits { flat_map (mark_of (columns_of Standard)) (codes "125890-") ≡ encode_utf8_all (codes "ㄅㄉㄓㄚㄞㄢㄦ") }
    ensures upper { flat_map (mark_of (columns_of Standard)) (codes "qwertyuiop") ≡ encode_utf8_all (codes "ㄆㄊㄍㄐㄔㄗㄧㄛㄟㄣ") }
    ensures home { flat_map (mark_of (columns_of Standard)) (codes "asdfghjkl;") ≡ encode_utf8_all (codes "ㄇㄋㄎㄑㄕㄘㄨㄜㄠㄤ") }
    ensures lower { flat_map (mark_of (columns_of Standard)) (codes "zxcvbnm,./") ≡ encode_utf8_all (codes "ㄈㄌㄏㄒㄖㄙㄩㄝㄡㄥ") }
    ensures tones { flat_map (toned (columns_of Standard)) (codes " 6347") ≡ encode_utf8_all (codes "ㄅㄅˊㄅˇㄅˋㄅ˙") }
{}

/// Eten, row by row of the keyboard.
pub fn eten_keyboard()
    ensures digits { flat_map (mark_of (columns_of Eten)) (codes "7890-=") ≡ encode_utf8_all (codes "ㄑㄢㄣㄤㄥㄦ") }
    ensures upper { flat_map (mark_of (columns_of Eten)) (codes "qwertyuiop") ≡ encode_utf8_all (codes "ㄟㄝㄧㄜㄊㄡㄩㄞㄛㄆ") }
    ensures home { flat_map (mark_of (columns_of Eten)) (codes "asdfghjkl;'") ≡ encode_utf8_all (codes "ㄚㄙㄉㄈㄐㄏㄖㄎㄌㄗㄘ") }
    ensures lower { flat_map (mark_of (columns_of Eten)) (codes "zxcvbnm,./") ≡ encode_utf8_all (codes "ㄠㄨㄒㄍㄅㄋㄇㄓㄔㄕ") }
    ensures tones { flat_map (toned (columns_of Eten)) (codes " 2341") ≡ encode_utf8_all (codes "ㄅㄅˊㄅˇㄅˋㄅ˙") }
{}

/// Backspace takes the final, else the medial, else the initial.
pub fn known_erasing()
    ensures finals { (fed (columns_of Standard) (record { initial = 20; medial = 2; final = 3; tone = 0 }) 8).held
        ≡ record { initial = 20; medial = 2; final = 0; tone = 0 } }
    ensures medials { (fed (columns_of Standard) (record { initial = 20; medial = 2; final = 0; tone = 0 }) 8).held
        ≡ record { initial = 20; medial = 0; final = 0; tone = 0 } }
    ensures initials { (fed (columns_of Standard) (record { initial = 20; medial = 0; final = 0; tone = 0 }) 8).held ≡ nothing_held }
    ensures no_medial { (fed (columns_of Eten) (record { initial = 20; medial = 0; final = 3; tone = 0 }) 8).held
        ≡ record { initial = 20; medial = 0; final = 0; tone = 0 } }
{}
