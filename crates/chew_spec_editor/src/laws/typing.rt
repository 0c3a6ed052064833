//! Known lines and calls of an editor alone: where keys ring or stay quiet, symbols, choices that last, and long stretches.

ghost use Rattle.std.specs.Prelude.{◌≡◌, ◌∷◌, [], codes, map};
ghost use Rattle.std.specs.List.{range_with_len};
ghost use Rattle.chew_spec_dictionary.specs.Call.{Learn, Look};
ghost use Rattle.chew_spec_dictionary.specs.FiveRows.{ce4, five_rows, shi4};
ghost use Rattle.chew_spec_text.specs.Sample.{bytes_of};
ghost use Rattle.chew_spec_editor.specs.Learning.{learns};
ghost use Rattle.chew_spec_editor.specs.Sample.{after_forgetting, after_typing, last_lines, last_of, lines_then, plans, plans_cells, with_cap, with_cells, with_page};
ghost use Rattle.chew_spec_editor.specs.Settings.{standard_settings};

/// What an empty buffer does: Home and End are quiet there, and the other keys that need a cell ring.
pub fn known_empty_buffer()
    ensures home { last_lines 1 standard_settings (codes "<H>") ≡ bytes_of "\t0\t\t\t\t\n" ∷ [] }
    ensures end { last_lines 1 standard_settings (codes "<Z>") ≡ bytes_of "\t0\t\t\t\t\n" ∷ [] }
    ensures bells { last_lines 9 standard_settings (codes "<E><D><L><R><V><T><C2><F1><K2>")
        ≡ map (λ key. bytes_of "\t0\t\t\t\tbell\n") (codes "EDLRVTCFK") }
    ensures window_keys { last_lines 3 standard_settings (codes "<U><P><N>") ≡ map (λ key. bytes_of "\t0\t\t\t\tbell\n") (codes "UPN") }
{}

/// While something is held, Enter and the moves ring, and Esc clears it.
pub fn known_held()
    ensures enter { last_lines 1 standard_settings (codes "hk4h<E>") ≡ bytes_of "策\t2\tㄘ\t\t\tbell\n" ∷ [] }
    ensures symbol { last_lines 1 standard_settings (codes "hk4h!") ≡ bytes_of "策\t2\tㄘ\t\t\tbell\n" ∷ [] }
    ensures home { last_lines 1 standard_settings (codes "hk4h<H>") ≡ bytes_of "策\t2\tㄘ\t\t\tbell\n" ∷ [] }
    ensures escape { last_lines 1 standard_settings (codes "hk4h<X>") ≡ bytes_of "策\t2\t\t\t\t\n" ∷ [] }
{}

/// A space is a symbol while nothing is held, and a tone else. A symbol has no candidates, and no break beside it.
pub fn known_symbols()
    ensures space { last_lines 1 standard_settings (codes "hk4 g4") ≡ bytes_of "策 是\t5\t\t\t\t\n" ∷ [] }
    ensures down { last_lines 1 standard_settings (codes "hk4!<V>") ≡ bytes_of "策!\t3\t\t\t\tbell\n" ∷ [] }
    ensures tab { last_lines 1 standard_settings (codes "hk4!<L><T>") ≡ bytes_of "策!\t2\t\t\t\tbell\n" ∷ [] }
    ensures add { last_lines 1 standard_settings (codes "hk4!<H><C2>") ≡ bytes_of "策!\t0\t\t\t\tbell\n" ∷ [] }
{}

/// Down looks up and phrases the one run of its place, and the others stay as they are.
pub fn known_second_run()
    ensures window { last_lines 1 standard_settings (codes "hk4!g4<V>") ≡ bytes_of "策!是\t5\t\t\t1/1 1是 2試\t\n" ∷ [] }
    ensures first { last_lines 1 standard_settings (codes "hk4!g4<H><V>") ≡ bytes_of "策!是\t0\t\t\t1/1 1策 2測\t\n" ∷ [] }
    ensures calls { (after_typing standard_settings (codes "hk4!g4<V>")).calls
        ≡ Look (ce4 ∷ []) ∷ Look (ce4 ∷ []) ∷ Look (ce4 ∷ []) ∷ Look (shi4 ∷ []) ∷ Look (shi4 ∷ []) ∷ [] }
    ensures picked { last_lines 1 standard_settings (codes "hk4!g4<V>2") ≡ bytes_of "策!試\t5\t\t\t\t\n" ∷ [] }
{}

/// Delete takes the cell at the cursor, and rings at the end.
pub fn known_delete()
    ensures { last_lines 3 standard_settings (codes "hk4g4<H><D><Z><D>")
        ≡ bytes_of "是\t0\t\t\t\t\n" ∷ bytes_of "是\t2\t\t\t\t\n" ∷ bytes_of "是\t2\t\t\t\tbell\n" ∷ [] }
{}

/// In a window Up closes too, the pages go back from the first to the last, and every other key rings.
pub fn known_window_keys()
    ensures up { last_lines 1 standard_settings (codes "hk4<V><U>") ≡ bytes_of "策\t2\t\t\t\t\n" ∷ [] }
    ensures back { last_lines 2 (with_page 1) (codes "hk4<V><P><L>") ≡ bytes_of "策\t2\t\t\t2/2 1測\t\n" ∷ bytes_of "策\t2\t\t\t1/2 1策\t\n" ∷ [] }
    ensures forth { last_lines 1 (with_page 1) (codes "hk4<V><R>") ≡ bytes_of "策\t2\t\t\t2/2 1測\t\n" ∷ [] }
    ensures second { last_lines 1 (with_page 1) (codes "hk4<V><N>1") ≡ bytes_of "測\t2\t\t\t\t\n" ∷ [] }
    ensures others { last_lines 7 standard_settings (codes "hk4<V><E><B><D><H><T><C2>h")
        ≡ map (λ key. bytes_of "策\t2\t\t\t1/1 1策 2測\tbell\n") (codes "EBDHTCh") }
{}

/// A symbol that leads a full buffer is committed, and isn't learnt. The break at the end of a released piece goes too.
pub fn known_released_symbol()
    ensures line { last_lines 1 (with_cells 1) (codes "!hk4") ≡ bytes_of "策\t2\t\t!\t\t\n" ∷ [] }
    ensures calls { (after_typing (with_cells 1) (codes "!hk4")).calls ≡ Look (ce4 ∷ []) ∷ [] }
    ensures by_symbol { (after_typing (with_cells 1) (codes "hk4!")).calls ≡ Look (ce4 ∷ []) ∷ Learn (ce4 ∷ []) (bytes_of "策") 200 200 ∷ [] }
    ensures broken { last_lines 1 (with_cells 2) (codes "hk4g4<L><T>hk4") ≡ bytes_of "測試\t2\t\t策\t\t\n" ∷ [] }
{}

/// A released piece that reaches past the cursor leaves the cursor at the start, and the new cell goes first.
pub fn known_release_past_the_cursor()
    ensures { last_lines 1 (with_cells 2) (codes "hk4g4<L>g4") ≡ bytes_of "是\t2\t\t測試\t\t\n" ∷ [] }
{}

/// A phrase that is committed a third time rises again.
pub fn known_third_commit()
    ensures { (after_typing standard_settings (codes "hk4g4<E>hk4g4<E>hk4g4<E>")).point.dictionary
        ≡ record { pairs = record { key = ce4 ∷ shi4 ∷ []; phrase = bytes_of "測試"; freq = 9320; time = 2 } ∷ []; life = 3; cap = 65_536 } }
{}

/// The commits with a dictionary of two pairs, and an added phrase that finds a dictionary of one pair full.
pub fn known_caps()
    ensures commits { map (λ line. line.commit) (last_of 1 (after_typing (with_cap 2) (codes "hk4<E>g4<E>hk4g4<E>hk4<E>")).lines) ≡ bytes_of "策" ∷ [] }
    ensures added { last_lines 1 (with_cap 1) (codes "hk4<E>hk4g4<H><C2>") ≡ bytes_of "測試\t0\t\t\t\tfull\n" ∷ [] }
{}

/// A choice keeps its phrase and frequency where somebody else has forgotten the pair since.
pub fn known_lasting_choice()
    ensures window { lines_then 1 (codes "hk4g4<H><V>") ≡ bytes_of "測試\t0\t\t\t1/1 1測試 2策試\t\n" ∷ [] }
    ensures after { last_of 1 (after_forgetting (codes "hk4g4<H><V>2") (codes "<Z>hk4")) ≡ bytes_of "策試策\t6\t\t\t\t\n" ∷ [] }
{}

/// Twelve single syllables are learnt as eleven and one.
pub fn known_long_stretch()
    ensures long { learns five_rows (plans_cells 12) [] (plans 12)
        ≡ Learn (map (λ k. ce4) (range_with_len 0 11)) (bytes_of "策策策策策策策策策策策") 0 0 ∷ Learn (ce4 ∷ []) (bytes_of "策") 200 200 ∷ [] }
    ensures broken { learns five_rows (plans_cells 3) (1 ∷ []) (plans 3)
        ≡ Learn (ce4 ∷ []) (bytes_of "策") 200 200 ∷ Learn (ce4 ∷ ce4 ∷ []) (bytes_of "策策") 0 0 ∷ [] }
{}
