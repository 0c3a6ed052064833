//! Laws and known values of keys and their names.

ghost use Rattle.std.specs.Prelude.{◌≡◌, ℕ, List, [], ◌∷◌, Some, None, IsTrue, true, false, flat_map, map, codes};
ghost use Rattle.std.specs.List.{list_all};
ghost use Rattle.chew_spec_text.specs.KeyStroke.{KeyStroke, Char, Enter, Backspace, Delete, Left, Right, Home, End, Up, Down, PageUp, PageDown, Tab, Esc, Add, Forget, Hide, is_key_stroke, is_printable, key_named, key_text, keys_in};

/// The key of each name, and words that are no names.
pub fn known_names()
    ensures editing { keys_in (codes "<E><B><D><L><R><H><Z>") ≡ Some (Enter ∷ (Backspace ∷ (Delete ∷ (Left ∷ (Right ∷ (Home ∷ (End ∷ []))))))) }
    ensures moving { keys_in (codes "<U><V><P><N><T><X>") ≡ Some (Up ∷ (Down ∷ (PageUp ∷ (PageDown ∷ (Tab ∷ (Esc ∷ [])))))) }
    ensures less_than { keys_in (codes "<lt>") ≡ Some (Char 60 ∷ []) }
    ensures adding { keys_in (codes "<C2><C3><C4><C5><C6><C7><C8><C9>") ≡ Some (map Add (2 ∷ (3 ∷ (4 ∷ (5 ∷ (6 ∷ (7 ∷ (8 ∷ (9 ∷ []))))))))) }
    ensures forgetting { keys_in (codes "<F1><F2><F3><F4><F5><F6><F7><F8><F9>") ≡ Some (map Forget (1 ∷ (2 ∷ (3 ∷ (4 ∷ (5 ∷ (6 ∷ (7 ∷ (8 ∷ (9 ∷ [])))))))))) }
    ensures hiding { keys_in (codes "<K2><K3><K4><K5><K6><K7><K8><K9>") ≡ Some (map Hide (2 ∷ (3 ∷ (4 ∷ (5 ∷ (6 ∷ (7 ∷ (8 ∷ (9 ∷ []))))))))) }
    ensures no_names { map key_named (codes "C1" ∷ (codes "C10" ∷ (codes "F0" ∷ (codes "F10" ∷ (codes "K1" ∷ (codes "K10" ∷ []))))))
        ≡ None ∷ (None ∷ (None ∷ (None ∷ (None ∷ (None ∷ []))))) }
    ensures other_words { map key_named (codes "e" ∷ (codes "Q" ∷ (codes "LT" ∷ (codes "EE" ∷ (codes "C02" ∷ (codes "C" ∷ (codes " E" ∷ ([] ∷ []))))))))
        ≡ None ∷ (None ∷ (None ∷ (None ∷ (None ∷ (None ∷ (None ∷ (None ∷ []))))))) }
{}

/// Characters stand for themselves, also '>'; a '<' that begins no name gives no keys.
pub fn known_keys()
    ensures characters { keys_in (codes "hk4 >E") ≡ Some (map Char (codes "hk4 >E")) }
    ensures mixed { keys_in (codes "g<C2>><E>4") ≡ Some (Char 103 ∷ (Add 2 ∷ (Char 62 ∷ (Enter ∷ (Char 52 ∷ []))))) }
    ensures empty { keys_in [] ≡ Some [] }
    ensures alone { keys_in (codes "hk<") ≡ None }
    ensures cut { keys_in (codes "<E") ≡ None }
    ensures two { keys_in (codes "<<E>") ≡ None }
    ensures unnamed { keys_in (codes "<>") ≡ None }
    ensures other { keys_in (codes "4<Q>") ≡ None }
{}

/// The keys of a text, printed, are the text, and where its characters are printable they are keys of a script; and
/// keys of a script, printed, are read as themselves.
pub fn printed_keys()
    ensures in_range { (text : List ℕ) (keys : List KeyStroke) → IsTrue (list_all is_printable text)
        → keys_in text ≡ Some keys → IsTrue (list_all is_key_stroke keys) }
    ensures text { (text : List ℕ) (keys : List KeyStroke) → keys_in text ≡ Some keys → flat_map key_text keys ≡ text }
    ensures read { (keys : List KeyStroke) → IsTrue (list_all is_key_stroke keys) → keys_in (flat_map key_text keys) ≡ Some keys }
{}

/// Characters from the space to `~` are keys; an added or hidden phrase has 2 to 9 cells, and one that is forgotten 1 to
/// 9.
pub fn keys_in_range()
    ensures printable { map is_printable (31 ∷ (32 ∷ (126 ∷ (127 ∷ [])))) ≡ false ∷ (true ∷ (true ∷ (false ∷ []))) }
    ensures characters { map is_key_stroke (map Char (31 ∷ (32 ∷ (60 ∷ (126 ∷ (127 ∷ [])))))) ≡ false ∷ (true ∷ (true ∷ (true ∷ (false ∷ [])))) }
    ensures added { map is_key_stroke (map Add (1 ∷ (2 ∷ (9 ∷ (10 ∷ []))))) ≡ false ∷ (true ∷ (true ∷ (false ∷ []))) }
    ensures forgotten { map is_key_stroke (map Forget (0 ∷ (1 ∷ (9 ∷ (10 ∷ []))))) ≡ false ∷ (true ∷ (true ∷ (false ∷ []))) }
    ensures hidden { map is_key_stroke (map Hide (1 ∷ (2 ∷ (9 ∷ (10 ∷ []))))) ≡ false ∷ (true ∷ (true ∷ (false ∷ []))) }
{}
