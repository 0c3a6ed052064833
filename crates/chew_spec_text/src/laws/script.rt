//! Laws and known values of scripts.

ghost use Rattle.std.specs.Prelude.{◌≡◌, ℕ, ◌+◌, ◌<◌, ◌≤◌, List, [], ◌∷◌, ◌++◌, length, take, filter, fold, Ok, Err, IsTrue, flat_map, map, max, codes, replicate, slice_index_or};
ghost use Rattle.std.specs.List.{count_by, join_with_byte, list_all};
ghost use Rattle.chew_spec_text.specs.KeyStroke.{KeyStroke, Char, Enter, is_key_stroke, key_text};
ghost use Rattle.chew_spec_text.specs.Line.{with_line_feed};
ghost use Rattle.chew_spec_text.specs.Lines.{Fault, but_for_line, is_line, lines_of, with_return, without_return};
ghost use Rattle.chew_spec_text.specs.Statement.{context_of, is_round, keys_for, says_something};
ghost use Rattle.chew_spec_text.specs.Script.{Script, ScriptCause, Size, Byte, Form, Context, Key, Keys, Rounds, keys_count, script_of};

/// Known scripts: one line with keys, with and without its line feed or a carriage return; the empty text; the third
/// context alone; the keys of a context in two lines; two rounds, a comment with a byte that isn't ASCII
/// and an empty line; a colon among keys.
pub fn known_scripts()
    ensures keys { script_of (codes "1:hk4g4<E>") ≡ Ok (record { contexts = (map Char (codes "hk4g4") ++ Enter ∷ []) ∷ []; rounds = 0 }) }
    ensures ended { script_of (with_line_feed (with_return (codes "1:hk4"))) ≡ Ok (record { contexts = map Char (codes "hk4") ∷ []; rounds = 0 }) }
    ensures empty { script_of [] ≡ Ok (record { contexts = []; rounds = 0 }) }
    ensures third { script_of (codes "3:") ≡ Ok (record { contexts = [] ∷ ([] ∷ ([] ∷ [])); rounds = 0 }) }
    ensures joined { script_of (flat_map with_line_feed (codes "2:hk" ∷ (codes "1: " ∷ (codes "2:4" ∷ []))))
        ≡ Ok (record { contexts = map Char (codes " ") ∷ (map Char (codes "hk4") ∷ []); rounds = 0 }) }
    ensures rounds { script_of (flat_map with_line_feed (codes "round" ∷ ([] ∷ ((35 ∷ (0x80 ∷ [])) ∷ (codes "round" ∷ [])))))
        ≡ Ok (record { contexts = []; rounds = 2 }) }
    ensures hash { script_of (codes "1:#\n#1:h") ≡ Ok (record { contexts = map Char (codes "#") ∷ []; rounds = 0 }) }
    ensures two_digits { script_of (codes "12:") ≡ Ok (record { contexts = replicate 12 []; rounds = 0 }) }
    ensures least_and_greatest { script_of (codes "1:" ++ (32 ∷ (126 ∷ []))) ≡ Ok (record { contexts = (Char 32 ∷ (Char 126 ∷ [])) ∷ []; rounds = 0 }) }
    ensures colon { script_of (codes "1:a:b") ≡ Ok (record { contexts = map Char (codes "a:b") ∷ []; rounds = 0 }) }
{}

/// A script for each cause that a line can have, but for the limits, and its line; the causes come in their order.
pub fn known_script_faults()
    ensures byte { script_of (codes "1:h\n" ++ (codes "17:<Q>" ++ 0x80 ∷ [])) ≡ Err (record { line = 2; cause = Byte }) }
    ensures two_returns { script_of (with_line_feed (with_return (with_return (codes "1:h")))) ≡ Err (record { line = 1; cause = Byte }) }
    ensures below_space { script_of (codes "1:" ++ 31 ∷ []) ≡ Err (record { line = 1; cause = Byte }) }
    ensures above_tilde { script_of (codes "1:" ++ 127 ∷ []) ≡ Err (record { line = 1; cause = Byte }) }
    ensures byte_first { script_of (codes "x\t") ≡ Err (record { line = 1; cause = Byte }) }
    ensures return_inside { script_of (codes "1:\rh") ≡ Err (record { line = 1; cause = Byte }) }
    ensures comment_inside { script_of (codes " # x") ≡ Err (record { line = 1; cause = Form }) }
    ensures other_digits { script_of (codes "1x:h") ≡ Err (record { line = 1; cause = Form }) }
    ensures other_word { script_of (codes "Round") ≡ Err (record { line = 1; cause = Form }) }
    ensures too_long_a_number { script_of (codes "160:h") ≡ Err (record { line = 1; cause = Context }) }
    ensures no_colon { script_of (codes "1") ≡ Err (record { line = 1; cause = Form }) }
    ensures no_number { script_of (codes "# x\n:hk4") ≡ Err (record { line = 2; cause = Form }) }
    ensures rounds { script_of (codes "round ") ≡ Err (record { line = 1; cause = Form }) }
    ensures context { script_of (codes "17:hk4") ≡ Err (record { line = 1; cause = Context }) }
    ensures zero { script_of (codes "0:hk4") ≡ Err (record { line = 1; cause = Context }) }
    ensures leading_zero { script_of (codes "01:<Q>") ≡ Err (record { line = 1; cause = Context }) }
    ensures key { script_of (codes "1:<Q>") ≡ Err (record { line = 1; cause = Key }) }
    ensures open_name { script_of (codes "16:hk4\n\n16:<E") ≡ Err (record { line = 3; cause = Key }) }
{}

/// The 65th round is refused.
pub fn many_rounds()
    ensures most { script_of (join_with_byte 10 (replicate 64 (codes "round"))) ≡ Ok (record { contexts = []; rounds = 64 }) }
    ensures one_more { script_of (join_with_byte 10 (replicate 65 (codes "round"))) ≡ Err (record { line = 65; cause = Rounds }) }
{}

/// At most 65,536 keys of a script, printed behind `1:`, are read as the keys of the first context; the 65,537th is
/// refused, but where a `<` behind the keys begins no name that is told first.
pub fn printed_line_of_keys()
    ensures read { (keys : List KeyStroke) → IsTrue (list_all is_key_stroke keys) → length keys ≤ 65_536
        → script_of (codes "1:" ++ flat_map key_text keys) ≡ Ok (record { contexts = keys ∷ []; rounds = 0 }) }
    ensures one_more { (keys : List KeyStroke) → IsTrue (list_all is_key_stroke keys) → length keys ≡ 65_537
        → script_of (codes "1:" ++ flat_map key_text keys) ≡ Err (record { line = 1; cause = Keys }) }
    ensures key_first { (keys : List KeyStroke) → IsTrue (list_all is_key_stroke keys) → length keys ≤ 65_537
        → script_of (codes "1:" ++ (flat_map key_text keys ++ codes "<")) ≡ Err (record { line = 1; cause = Key }) }
{}

/// A script has at most 16 contexts, 65,536 keys and 64 rounds, and each key is one that a script can name.
pub fn limits_of_a_script()
    ensures contexts { (text : List ℕ) (script : Script) → script_of text ≡ Ok script → length script.contexts ≤ 16 }
    ensures keys { (text : List ℕ) (script : Script) → script_of text ≡ Ok script → keys_count script.contexts ≤ 65_536 }
    ensures rounds { (text : List ℕ) (script : Script) → script_of text ≡ Ok script → script.rounds ≤ 64 }
    ensures in_range { (text : List ℕ) (script : Script) → script_of text ≡ Ok script → IsTrue (list_all (list_all is_key_stroke) script.contexts) }
{}

/// The keys of a context are those of its lines, joined in their order; there are as many contexts as the greatest
/// number of a line of keys says, and as many rounds as lines that ask for one.
pub fn scripts_by_their_lines()
    ensures keys { (text : List ℕ) (script : Script) (place : ℕ) → script_of text ≡ Ok script
        → slice_index_or script.contexts place [] ≡ flat_map (keys_for (place + 1)) (lines_of text) }
    ensures contexts { (text : List ℕ) (script : Script) → script_of text ≡ Ok script
        → length script.contexts ≡ fold (λ greatest line. max greatest (context_of line)) 0 (lines_of text) }
    ensures rounds { (text : List ℕ) (script : Script) → script_of text ≡ Ok script → script.rounds ≡ count_by is_round (lines_of text) }
{}

/// The size is told exactly where a script is too long, of line 0; else a fault is told of one of its lines, and what
/// stands behind that line doesn't matter.
pub fn lines_of_script_faults()
    ensures too_long { (text : List ℕ) → 1_048_576 < length text → script_of text ≡ Err (record { line = 0; cause = Size }) }
    ensures whole { (text : List ℕ) (fault : Fault ScriptCause) → script_of text ≡ Err fault → fault.line ≡ 0 → fault.cause ≡ Size }
    ensures size { (text : List ℕ) (fault : Fault ScriptCause) → script_of text ≡ Err fault → fault.cause ≡ Size → 1_048_576 < length text }
    ensures at_most { (text : List ℕ) (fault : Fault ScriptCause) → script_of text ≡ Err fault → fault.line ≤ length (lines_of text) }
    ensures later { (text other : List ℕ) (fault : Fault ScriptCause) → script_of text ≡ Err fault → 0 < fault.line
        → length other ≤ 1_048_576 → take fault.line (lines_of other) ≡ take fault.line (lines_of text) → script_of other ≡ Err fault }
{}

/// In a script, carriage returns at the ends of lines change nothing; nor do comments and empty lines, but for the
/// number of a faulty line.
pub fn what_changes_no_script()
    ensures returns { (lines : List (List ℕ)) → IsTrue (list_all is_line lines) → map without_return lines ≡ lines
        → length (flat_map with_line_feed (map with_return lines)) ≤ 1_048_576
        → script_of (flat_map with_line_feed (map with_return lines)) ≡ script_of (flat_map with_line_feed lines) }
    ensures lines { (text other : List ℕ) → length text ≤ 1_048_576 → length other ≤ 1_048_576
        → filter says_something (lines_of text) ≡ filter says_something (lines_of other) → but_for_line (script_of text) ≡ but_for_line (script_of other) }
{}
