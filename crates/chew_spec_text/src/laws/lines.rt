//! Laws of the lines of a text.

ghost use Rattle.std.specs.Prelude.{◌≡◌, ℕ, not, List, [], ◌∷◌, ◌++◌, ◌==◌, IsTrue, flat_map, map, codes};
ghost use Rattle.std.specs.List.{join_with_byte, list_all};
ghost use Rattle.chew_spec_text.specs.Line.{with_line_feed};
ghost use Rattle.chew_spec_text.specs.Lines.{is_line, lines_of, with_return, without_return};

/// Lines without a line feed, each ended by one, are read as themselves and an empty line behind them, also with a
/// carriage return at their ends. No line of a text has a line feed, and a text without carriage returns is its lines,
/// joined.
pub fn lines_of_a_text()
    ensures read { (lines : List (List ℕ)) → IsTrue (list_all is_line lines)
        → map without_return lines ≡ lines → lines_of (flat_map with_line_feed lines) ≡ lines ++ [] ∷ [] }
    ensures returns { (lines : List (List ℕ)) → IsTrue (list_all is_line lines)
        → lines_of (flat_map with_line_feed (map with_return lines)) ≡ lines ++ [] ∷ [] }
    ensures no_line_feed { (text : List ℕ) → IsTrue (list_all is_line (lines_of text)) }
    ensures joined { (text : List ℕ) → IsTrue (list_all (λ byte. not (byte == 13)) text) → join_with_byte 10 (lines_of text) ≡ text }
{}

/// Line feeds alone part lines, and one carriage return is dropped, at the end of a line: the empty text is an empty
/// line; a text that ends by a line feed has an empty line behind it.
pub fn known_lines_of_texts()
    ensures empty { lines_of [] ≡ [] ∷ [] }
    ensures ended { lines_of (codes "a\n\nb\n") ≡ codes "a" ∷ ([] ∷ (codes "b" ∷ ([] ∷ []))) }
    ensures returns { lines_of (codes "a\r\r\n\rb\r\n\r\nc\r") ≡ codes "a\r" ∷ (codes "\rb" ∷ ([] ∷ (codes "c" ∷ []))) }
    ensures alone { lines_of (codes "\r\r") ≡ codes "\r" ∷ [] }
    ensures other { lines_of (11 ∷ (12 ∷ (0x85 ∷ []))) ≡ (11 ∷ (12 ∷ (0x85 ∷ []))) ∷ [] }
{}
