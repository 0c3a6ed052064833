//! Known edits of a buffer with a break and two choices.

ghost use Rattle.std.specs.Prelude.{◌≡◌, [], ◌∷◌, ◌++◌, true, false};
ghost use Rattle.chew_spec_phrasing.specs.Known.{attempt, be, choice, plan, survey};
ghost use Rattle.chew_spec_preedit.specs.Buffer.{empty_buffer, is_buffer, is_choice_of};
ghost use Rattle.chew_spec_preedit.specs.Cell.{Sound, Symbol};
ghost use Rattle.chew_spec_preedit.specs.Edit.{backspaced, break_toggled, can_break, chosen, deleted, emptied, inserted, is_full, moved_to, released};
ghost use Rattle.chew_spec_preedit.specs.Known.{buffer, ce, mark, shi, six_at, six_cells, test_at};

/// What a buffer may be: its cells fit, its cursor is among them, breaks are between syllables, and choices lie apart, with no
/// break inside and over syllables alone.
pub fn known_buffers()
    ensures six { is_buffer (six_at 6) ≡ true }
    ensures cursor { is_buffer (six_at 7) ≡ false }
    ensures most { is_buffer (empty_buffer 39) ≡ true }
    ensures more { is_buffer (empty_buffer 40) ≡ false }
    ensures least { is_buffer (empty_buffer 1) ≡ true }
    ensures less { is_buffer (empty_buffer 0) ≡ false }
    ensures full { is_full (buffer (ce ∷ ce ∷ ce ∷ ce ∷ ce ∷ ce ∷ ce ∷ ce ∷ ce ∷ ce ∷ []) 0 [] []) ≡ true }
    ensures room { is_full (buffer (ce ∷ ce ∷ ce ∷ ce ∷ ce ∷ ce ∷ ce ∷ ce ∷ ce ∷ []) 0 [] []) ≡ false }
    ensures eleven { is_buffer (buffer (ce ∷ ce ∷ ce ∷ ce ∷ ce ∷ ce ∷ ce ∷ ce ∷ ce ∷ ce ∷ ce ∷ []) 0 [] []) ≡ false }
    ensures break_at_start { is_buffer (buffer six_cells 0 (0 ∷ []) []) ≡ false }
    ensures break_at_symbol { is_buffer (buffer six_cells 0 (4 ∷ []) []) ≡ false }
    ensures break_twice { is_buffer (buffer six_cells 0 (2 ∷ 2 ∷ []) []) ≡ false }
    ensures broken_choice { is_buffer (buffer six_cells 0 (1 ∷ []) (test_at 0 ∷ [])) ≡ false }
    ensures choice_over_symbol { is_buffer (buffer six_cells 0 [] (test_at 3 ∷ [])) ≡ false }
    ensures choice_past_end { is_buffer (buffer six_cells 0 [] (test_at 5 ∷ [])) ≡ false }
    ensures choices_meet { is_buffer (buffer six_cells 0 [] (test_at 0 ∷ test_at 1 ∷ [])) ≡ false }
    ensures no_symbol { is_buffer (buffer (Symbol 31 ∷ []) 0 [] []) ≡ false }
    ensures no_syllable { is_buffer (buffer (Sound 0 ∷ []) 0 [] []) ≡ false }
{}

/// An insert before, inside, between and behind the choices.
pub fn known_inserts()
    ensures start { inserted (six_at 0) mark ≡ buffer (mark ∷ ce ∷ shi ∷ ce ∷ shi ∷ mark ∷ shi ∷ []) 1 (3 ∷ []) (test_at 1 ∷ test_at 3 ∷ []) }
    ensures inside { inserted (six_at 1) shi ≡ buffer (ce ∷ shi ∷ shi ∷ ce ∷ shi ∷ mark ∷ shi ∷ []) 2 (3 ∷ []) (test_at 3 ∷ []) }
    ensures at_break { inserted (six_at 2) shi ≡ buffer (ce ∷ shi ∷ shi ∷ ce ∷ shi ∷ mark ∷ shi ∷ []) 3 [] (test_at 0 ∷ test_at 3 ∷ []) }
    ensures inside_second { inserted (six_at 3) mark ≡ buffer (ce ∷ shi ∷ ce ∷ mark ∷ shi ∷ mark ∷ shi ∷ []) 4 (2 ∷ []) (test_at 0 ∷ []) }
    ensures behind { inserted (six_at 4) ce ≡ buffer (ce ∷ shi ∷ ce ∷ shi ∷ ce ∷ mark ∷ shi ∷ []) 5 (2 ∷ []) (test_at 0 ∷ test_at 2 ∷ []) }
    ensures end { inserted (six_at 6) ce ≡ buffer (ce ∷ shi ∷ ce ∷ shi ∷ mark ∷ shi ∷ ce ∷ []) 7 (2 ∷ []) (test_at 0 ∷ test_at 2 ∷ []) }
{}

/// Without a cell of either choice, and without the symbol behind them.
pub fn known_deletes()
    ensures first { deleted (six_at 0) ≡ buffer (shi ∷ ce ∷ shi ∷ mark ∷ shi ∷ []) 0 (1 ∷ []) (test_at 1 ∷ []) }
    ensures before_break { deleted (six_at 1) ≡ buffer (ce ∷ ce ∷ shi ∷ mark ∷ shi ∷ []) 1 [] (test_at 1 ∷ []) }
    ensures at_break { deleted (six_at 2) ≡ buffer (ce ∷ shi ∷ shi ∷ mark ∷ shi ∷ []) 2 [] (test_at 0 ∷ []) }
    ensures behind_break { deleted (six_at 3) ≡ buffer (ce ∷ shi ∷ ce ∷ mark ∷ shi ∷ []) 3 (2 ∷ []) (test_at 0 ∷ []) }
    ensures symbol { deleted (six_at 4) ≡ buffer (ce ∷ shi ∷ ce ∷ shi ∷ shi ∷ []) 4 (2 ∷ []) (test_at 0 ∷ test_at 2 ∷ []) }
    ensures back_first { backspaced (six_at 1) ≡ buffer (shi ∷ ce ∷ shi ∷ mark ∷ shi ∷ []) 0 (1 ∷ []) (test_at 1 ∷ []) }
    ensures back_before_break { backspaced (six_at 2) ≡ buffer (ce ∷ ce ∷ shi ∷ mark ∷ shi ∷ []) 1 [] (test_at 1 ∷ []) }
    ensures back_last { backspaced (six_at 6) ≡ buffer (ce ∷ shi ∷ ce ∷ shi ∷ mark ∷ []) 5 (2 ∷ []) (test_at 0 ∷ test_at 2 ∷ []) }
{}

/// A break inside either choice takes that choice away; where there is a break it goes; beside a symbol there is none.
pub fn known_breaks()
    ensures inside { break_toggled (six_at 1) ≡ buffer six_cells 1 (1 ∷ 2 ∷ []) (test_at 2 ∷ []) }
    ensures inside_second { break_toggled (six_at 3) ≡ buffer six_cells 3 (2 ∷ 3 ∷ []) (test_at 0 ∷ []) }
    ensures cleared { break_toggled (six_at 2) ≡ buffer six_cells 2 [] (test_at 0 ∷ test_at 2 ∷ []) }
    ensures beside { break_toggled (buffer six_cells 2 [] (test_at 0 ∷ test_at 2 ∷ [])) ≡ six_at 2 }
    ensures can { can_break (six_at 1) ≡ true }
    ensures start { can_break (six_at 0) ≡ false }
    ensures before_symbol { can_break (six_at 4) ≡ false }
    ensures behind_symbol { can_break (six_at 5) ≡ false }
    ensures end { can_break (six_at 6) ≡ false }
{}

/// A choice takes the place of those that have a cell of it, and stands among the others.
pub fn known_choices()
    ensures one_cell { chosen (choice 1 plan 200) (six_at 0) ≡ buffer six_cells 0 (2 ∷ []) (choice 1 plan 200 ∷ test_at 2 ∷ []) }
    ensures same_cells { chosen (choice 2 (survey ++ attempt) 7) (six_at 0) ≡ buffer six_cells 0 (2 ∷ []) (test_at 0 ∷ choice 2 (survey ++ attempt) 7 ∷ []) }
    ensures behind { chosen (choice 5 be 9000) (six_at 6) ≡ buffer six_cells 6 (2 ∷ []) (test_at 0 ∷ test_at 2 ∷ choice 5 be 9000 ∷ []) }
    ensures between { chosen (choice 2 plan 0) (buffer six_cells 0 [] (test_at 0 ∷ choice 3 be 9000 ∷ []))
        ≡ buffer six_cells 0 [] (test_at 0 ∷ choice 2 plan 0 ∷ choice 3 be 9000 ∷ []) }
    ensures both { chosen (test_at 1) (buffer six_cells 0 [] (test_at 0 ∷ test_at 2 ∷ [])) ≡ buffer six_cells 0 [] (test_at 1 ∷ []) }
    ensures may { is_choice_of six_cells [] (test_at 1) ≡ true }
    ensures parted { is_choice_of six_cells (2 ∷ []) (test_at 1) ≡ false }
    ensures most { is_choice_of six_cells [] (choice 5 be 99_999_999) ≡ true }
    ensures more { is_choice_of six_cells [] (choice 5 be 100_000_000) ≡ false }
{}

/// The first cells go with their breaks, the one at their end too, and their choices; the cursor moves along.
pub fn known_releases()
    ensures one { released 2 (six_at 3) ≡ buffer (ce ∷ shi ∷ mark ∷ shi ∷ []) 1 [] (test_at 0 ∷ []) }
    ensures past_cursor { released 2 (six_at 1) ≡ buffer (ce ∷ shi ∷ mark ∷ shi ∷ []) 0 [] (test_at 0 ∷ []) }
    ensures both { released 4 (six_at 6) ≡ buffer (mark ∷ shi ∷ []) 2 [] [] }
    ensures later_break { released 1 (buffer six_cells 6 (1 ∷ 2 ∷ []) (test_at 2 ∷ []))
        ≡ buffer (shi ∷ ce ∷ shi ∷ mark ∷ shi ∷ []) 5 (1 ∷ []) (test_at 1 ∷ []) }
    ensures none { released 0 (six_at 3) ≡ six_at 3 }
    ensures moved { moved_to 5 (six_at 0) ≡ six_at 5 }
    ensures emptied { emptied (six_at 3) ≡ buffer [] 0 [] [] }
{}
