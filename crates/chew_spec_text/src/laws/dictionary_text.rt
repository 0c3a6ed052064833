//! Laws and known values of the text of a dictionary.

ghost use Rattle.std.specs.Prelude.{◌≡◌, ℕ, ◌<◌, ◌≤◌, ◌&&◌, List, [], ◌∷◌, ◌++◌, length, take, filter, ◌==◌, nat_lt, Ok, Err, IsTrue, flat_map, map, codes};
ghost use Rattle.std.specs.List.{join_with_byte, list_all, list_any};
ghost use Rattle.chew_spec_dictionary.specs.FiveRows.{ce4, five_rows, row_at_start};
ghost use Rattle.chew_spec_syllable.specs.Row.{Row, is_pair_of, is_row, no_pair_twice};
ghost use Rattle.chew_spec_text.specs.DictionaryText.{RowCause, Size, Phrase, Frequency, Syllable, Lengths, Twice, Rows, dictionary_rows, fields_of};
ghost use Rattle.chew_spec_text.specs.Line.{with_line_feed};
ghost use Rattle.chew_spec_text.specs.Lines.{Fault, but_for_line, is_line, lines_of, with_return, without_return};
ghost use Rattle.chew_spec_text.specs.RowText.{rows_text, without_time};
ghost use Rattle.chew_spec_text.specs.Sample.{bytes_of, five_lines};

/// The five lines and their rows; the same with a comment before them, with carriage returns, with an empty line and
/// without the last line feed. A line with tabs, several spaces, a comment behind it, or a frequency with leading
/// zeros; the empty text.
pub fn known_rows()
    ensures five { dictionary_rows (flat_map with_line_feed five_lines) ≡ Ok five_rows }
    ensures comment { dictionary_rows (flat_map with_line_feed (codes "# x" ∷ five_lines)) ≡ Ok five_rows }
    ensures carriage_returns { dictionary_rows (flat_map with_line_feed (map with_return five_lines)) ≡ Ok five_rows }
    ensures empty_line { dictionary_rows (flat_map with_line_feed ([] ∷ five_lines)) ≡ Ok five_rows }
    ensures not_ended { dictionary_rows (join_with_byte 10 five_lines) ≡ Ok five_rows }
    ensures tabs { dictionary_rows (bytes_of "測" ++ (9 ∷ (codes "100" ++ (32 ∷ (9 ∷ bytes_of "ㄘㄜˋ"))))) ≡ Ok (row_at_start (ce4 ∷ []) (bytes_of "測") 100 ∷ []) }
    ensures spaces { dictionary_rows (bytes_of "  測  100  ㄘㄜˋ # x") ≡ Ok (row_at_start (ce4 ∷ []) (bytes_of "測") 100 ∷ []) }
    ensures zeros { dictionary_rows (bytes_of "測 000000000007 ㄘㄜˋ") ≡ Ok (row_at_start (ce4 ∷ []) (bytes_of "測") 7 ∷ []) }
    ensures greatest { dictionary_rows (bytes_of "測 99999999 ㄘㄜˋ") ≡ Ok (row_at_start (ce4 ∷ []) (bytes_of "測") 99_999_999 ∷ []) }
    ensures empty { dictionary_rows [] ≡ Ok [] }
    ensures hash { dictionary_rows (bytes_of "#\n測 100 ㄘㄜˋ#\n#策") ≡ Ok (row_at_start (ce4 ∷ []) (bytes_of "測") 100 ∷ []) }
{}

/// Fields are parted by spaces and tabs alone, and what a `#` begins is no field; other white space and control
/// characters are part of a field.
pub fn known_fields()
    ensures parted { fields_of (codes " a \tb\t\tc ") ≡ codes "a" ∷ (codes "b" ∷ (codes "c" ∷ [])) }
    ensures not_parted { fields_of (97 ∷ (11 ∷ (12 ∷ (13 ∷ (0 ∷ (31 ∷ (33 ∷ (8 ∷ (10 ∷ (0x85 ∷ (0xA0 ∷ (44 ∷ (98 ∷ [])))))))))))))
        ≡ (97 ∷ (11 ∷ (12 ∷ (13 ∷ (0 ∷ (31 ∷ (33 ∷ (8 ∷ (10 ∷ (0x85 ∷ (0xA0 ∷ (44 ∷ (98 ∷ []))))))))))))) ∷ [] }
    ensures comment { fields_of (codes "a b#c # d") ≡ codes "a" ∷ (codes "b" ∷ []) }
    ensures none { fields_of (codes " \t # a") ≡ [] }
{}

/// A dictionary for each cause that a line can have, but for the limits, and its line; the causes come in their order.
pub fn known_row_faults()
    ensures phrase { dictionary_rows (bytes_of "測 100 ㄘㄜˋ\na abc x") ≡ Err (record { line = 2; cause = Phrase }) }
    ensures frequency { dictionary_rows (bytes_of "測 100 ㄘㄜˋ\n測 abc ㄘㄜˋ\na") ≡ Err (record { line = 2; cause = Frequency }) }
    ensures missing { dictionary_rows (bytes_of "測") ≡ Err (record { line = 1; cause = Frequency }) }
    ensures too_frequent { dictionary_rows (bytes_of "測 100000000 ㄘㄜˋ") ≡ Err (record { line = 1; cause = Frequency }) }
    ensures syllable { dictionary_rows (bytes_of "\n# x\n測 100 ㄘㄜˋ x") ≡ Err (record { line = 3; cause = Syllable }) }
    ensures lengths { dictionary_rows (bytes_of "測試 100 ㄘㄜˋ") ≡ Err (record { line = 1; cause = Lengths }) }
    ensures more_syllables { dictionary_rows (bytes_of "測 100 ㄘㄜˋ ㄕˋ") ≡ Err (record { line = 1; cause = Lengths }) }
    ensures no_syllable { dictionary_rows (bytes_of "測 100") ≡ Err (record { line = 1; cause = Lengths }) }
    ensures twice { dictionary_rows (bytes_of "測 100 ㄘㄜˋ\n測 200 ㄘㄜˋ") ≡ Err (record { line = 2; cause = Twice }) }
    ensures frequency_first { dictionary_rows (bytes_of "測 abc x") ≡ Err (record { line = 1; cause = Frequency }) }
    ensures lengths_first { dictionary_rows (bytes_of "測 100 ㄘㄜˋ\n測 100") ≡ Err (record { line = 2; cause = Lengths }) }
    ensures phrase_first { dictionary_rows (bytes_of "a") ≡ Err (record { line = 1; cause = Phrase }) }
    ensures syllable_first { dictionary_rows (bytes_of "測 100 x ㄘㄜˋ") ≡ Err (record { line = 1; cause = Syllable }) }
    ensures fault_first { dictionary_rows (bytes_of "測 1 ㄘㄜˋ\n測 2 ㄘㄜˋ\na") ≡ Err (record { line = 2; cause = Twice }) }
    ensures two_returns { dictionary_rows (with_line_feed (with_return (with_return (bytes_of "測 100 ㄘㄜˋ")))) ≡ Err (record { line = 1; cause = Syllable }) }
{}

/// The rows of a dictionary are rows that were never learnt, no pair stands twice, and they are at most 250,000.
pub fn rows_of_a_text()
    ensures rows { (text : List ℕ) (rows : List Row) → dictionary_rows text ≡ Ok rows → IsTrue (list_all (λ row. is_row row && (row.time == 0)) rows) }
    ensures no_pair_twice { (text : List ℕ) (rows : List Row) → dictionary_rows text ≡ Ok rows → IsTrue (no_pair_twice rows) }
    ensures few { (text : List ℕ) (rows : List Row) → dictionary_rows text ≡ Ok rows → length rows ≤ 250_000 }
{}

/// At most 250,000 rows with no pair twice, printed a line each, are no longer than 64 MiB and are read as themselves
/// without their times; the 250,001st is refused, and one whose pair stands in an earlier row for that.
pub fn printed_rows()
    ensures read { (rows : List Row) → IsTrue (list_all is_row rows) → IsTrue (no_pair_twice rows)
        → length rows ≤ 250_000 → dictionary_rows (rows_text rows) ≡ Ok (map without_time rows) }
    ensures short { (rows : List Row) → IsTrue (list_all is_row rows) → length rows ≤ 250_000 → length (rows_text rows) ≤ 67_108_864 }
    ensures one_more { (rows : List Row) (row : Row) → IsTrue (list_all is_row (rows ++ row ∷ [])) → IsTrue (no_pair_twice (rows ++ row ∷ []))
        → length rows ≡ 250_000 → dictionary_rows (rows_text (rows ++ row ∷ [])) ≡ Err (record { line = 250_001; cause = Rows }) }
    ensures twice_first { (rows : List Row) (row : Row) → IsTrue (list_all is_row (rows ++ row ∷ [])) → IsTrue (no_pair_twice rows)
        → IsTrue (list_any (is_pair_of row.key row.phrase) rows) → length rows ≡ 250_000
        → dictionary_rows (rows_text (rows ++ row ∷ [])) ≡ Err (record { line = 250_001; cause = Twice }) }
{}

/// The five rows as they are printed, byte for byte; a row's frequency has no zeros in front, and its time isn't told.
pub fn known_rows_printed()
    ensures five { rows_text five_rows ≡ flat_map with_line_feed five_lines }
    ensures bytes { rows_text (record { key = ce4 ∷ (8708 ∷ []); phrase = bytes_of "測試"; freq = 20; time = 7 } ∷ [])
        ≡ 0xE6 ∷ (0xB8 ∷ (0xAC ∷ (0xE8 ∷ (0xA9 ∷ (0xA6 ∷ (32 ∷ (50 ∷ (48 ∷ (32 ∷ (0xE3 ∷ (0x84 ∷ (0x98 ∷ (0xE3 ∷ (0x84
        ∷ (0x9C ∷ (0xCB ∷ (0x8B ∷ (32 ∷ (0xE3 ∷ (0x84 ∷ (0x95 ∷ (0xCB ∷ (0x8B ∷ (10 ∷ [])))))))))))))))))))))))) }
    ensures zero { rows_text (row_at_start (ce4 ∷ []) (bytes_of "測") 0 ∷ []) ≡ with_line_feed (bytes_of "測 0 ㄘㄜˋ") }
    ensures none { rows_text [] ≡ [] }
{}

/// The size is told exactly where a dictionary is too long, of line 0; else a fault is told of one of its lines, and
/// what stands behind that line doesn't matter.
pub fn lines_of_row_faults()
    ensures too_long { (text : List ℕ) → 67_108_864 < length text → dictionary_rows text ≡ Err (record { line = 0; cause = Size }) }
    ensures whole { (text : List ℕ) (fault : Fault RowCause) → dictionary_rows text ≡ Err fault → fault.line ≡ 0 → fault.cause ≡ Size }
    ensures size { (text : List ℕ) (fault : Fault RowCause) → dictionary_rows text ≡ Err fault → fault.cause ≡ Size → 67_108_864 < length text }
    ensures at_most { (text : List ℕ) (fault : Fault RowCause) → dictionary_rows text ≡ Err fault → fault.line ≤ length (lines_of text) }
    ensures later { (text other : List ℕ) (fault : Fault RowCause) → dictionary_rows text ≡ Err fault → 0 < fault.line
        → length other ≤ 67_108_864 → take fault.line (lines_of other) ≡ take fault.line (lines_of text) → dictionary_rows other ≡ Err fault }
{}

/// In a dictionary, carriage returns at the ends of lines change nothing, nor does a comment behind a line: lines say
/// what their fields say. Lines without fields change nothing but the number of a faulty line.
pub fn what_changes_no_row()
    ensures returns { (lines : List (List ℕ)) → IsTrue (list_all is_line lines) → map without_return lines ≡ lines
        → length (flat_map with_line_feed (map with_return lines)) ≤ 67_108_864
        → dictionary_rows (flat_map with_line_feed (map with_return lines)) ≡ dictionary_rows (flat_map with_line_feed lines) }
    ensures comment { (line comment : List ℕ) → fields_of (line ++ (35 ∷ comment)) ≡ fields_of line }
    ensures fields { (text other : List ℕ) → length text ≤ 67_108_864 → length other ≤ 67_108_864
        → map fields_of (lines_of text) ≡ map fields_of (lines_of other) → dictionary_rows text ≡ dictionary_rows other }
    ensures lines { (text other : List ℕ) → length text ≤ 67_108_864 → length other ≤ 67_108_864
        → filter (λ line. nat_lt 0 (length (fields_of line))) (lines_of text) ≡ filter (λ line. nat_lt 0 (length (fields_of line))) (lines_of other)
        → but_for_line (dictionary_rows text) ≡ but_for_line (dictionary_rows other) }
{}
