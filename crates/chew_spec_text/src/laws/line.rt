//! Known lines of handled keys.

ghost use Rattle.std.specs.Prelude.{◌≡◌, [], ◌∷◌, ◌++◌, map, codes};
ghost use Rattle.chew_spec_text.specs.Line.{Quiet, Bell, Full, Added, Forgot, Hidden, Missing, line_text, note_text};
ghost use Rattle.chew_spec_text.specs.Sample.{bytes_of};

/// A line's fields are parted by a TAB, and a line feed ends it; a note stands in the last field.
pub fn known_lines()
    ensures committed { line_text (record { preedit = []; column = 0; held = []; commit = bytes_of "測試"; window = []; note = Quiet })
        ≡ 9 ∷ (48 ∷ (9 ∷ (9 ∷ (bytes_of "測試" ++ 9 ∷ (9 ∷ (10 ∷ [])))))) }
    ensures bell { line_text (record { preedit = bytes_of "測"; column = 2; held = bytes_of "ㄕ"; commit = []; window = []; note = Bell })
        ≡ bytes_of "測" ++ (9 ∷ (50 ∷ (9 ∷ (bytes_of "ㄕ" ++ (9 ∷ (9 ∷ (9 ∷ (codes "bell" ++ 10 ∷ [])))))))) }
    ensures window { line_text (record { preedit = bytes_of "測"; column = 0; held = []; commit = []; window = bytes_of "1/1 1測 2策"; note = Full })
        ≡ bytes_of "測" ++ (9 ∷ (48 ∷ (9 ∷ (9 ∷ (9 ∷ (bytes_of "1/1 1測 2策" ++ (9 ∷ (codes "full" ++ 10 ∷ [])))))))) }
    ensures notes { map note_text (Quiet ∷ (Bell ∷ (Full ∷ (Added ∷ (Forgot ∷ (Hidden ∷ (Missing ∷ [])))))))
        ≡ [] ∷ (codes "bell" ∷ (codes "full" ∷ (codes "added" ∷ (codes "forgot" ∷ (codes "hidden" ∷ (codes "none" ∷ [])))))) }
{}
