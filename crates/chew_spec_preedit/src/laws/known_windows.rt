//! Known lists of candidates, and a window of twelve.

ghost use Rattle.std.specs.Prelude.{◌≡◌, [], ◌∷◌, ◌++◌, drop, take, false, true, Some, None};
ghost use Rattle.chew_spec_phrasing.specs.Known.{attempt, be, choice, five_hits, hit, plan, survey};
ghost use Rattle.chew_spec_preedit.specs.Known.{plans_below, test_lists, twelve};
ghost use Rattle.chew_spec_preedit.specs.Window.{candidate_lists, is_window, lengths_at, next_page, on_page, opened, page_before, pages_of, picked, shorter};

/// The lists for a place: the longest first, and none that a break parts or that has no candidate.
pub fn known_lists()
    ensures both { candidate_lists five_hits [] 2 0 ≡ test_lists }
    ensures parted { candidate_lists five_hits (1 ∷ []) 2 0 ≡ drop 1 test_lists }
    ensures second { candidate_lists five_hits (1 ∷ []) 2 1 ≡ record { len = 1; rows = hit 1 1 be 9000 ∷ hit 1 1 attempt 300 ∷ [] } ∷ [] }
    ensures none { candidate_lists [] [] 2 0 ≡ [] }
    ensures lengths { lengths_at 5 2 ≡ 3 ∷ 2 ∷ 1 ∷ [] }
    ensures most { lengths_at 39 20 ≡ 11 ∷ 10 ∷ 9 ∷ 8 ∷ 7 ∷ 6 ∷ 5 ∷ 4 ∷ 3 ∷ 2 ∷ 1 ∷ [] }
{}

/// Ten of twelve are on the first page and two on the second; or one on each of twelve.
pub fn known_pages()
    ensures two { pages_of (twelve 10 1) ≡ 2 }
    ensures first { on_page (twelve 10 1) ≡ take 10 (plans_below 12) }
    ensures last { on_page (twelve 10 2) ≡ hit 0 1 plan 1 ∷ hit 0 1 plan 0 ∷ [] }
    ensures next { next_page (twelve 10 1) ≡ twelve 10 2 }
    ensures round { next_page (twelve 10 2) ≡ twelve 10 1 }
    ensures back { page_before (twelve 10 2) ≡ twelve 10 1 }
    ensures back_round { page_before (twelve 10 1) ≡ twelve 10 2 }
    ensures twelve { pages_of (twelve 1 1) ≡ 12 }
    ensures second { on_page (twelve 1 2) ≡ hit 0 1 plan 10 ∷ [] }
    ensures exact { pages_of (twelve 6 1) ≡ 2 }
    ensures all { pages_of (twelve 12 1) ≡ 1 }
{}

/// Picks count from 0 on the page; a window has a page of a list, and up to ten on it.
pub fn known_picks()
    ensures first { picked (twelve 10 2) 0 ≡ Some (choice 0 plan 1) }
    ensures last { picked (twelve 10 2) 1 ≡ Some (choice 0 plan 0) }
    ensures none { picked (twelve 10 2) 2 ≡ None }
    ensures tenth { picked (twelve 10 1) 9 ≡ Some (choice 0 plan 2) }
    ensures eleventh { picked (twelve 10 1) 10 ≡ None }
    ensures at_place { picked (opened 5 test_lists 10) 0 ≡ Some (choice 5 (survey ++ attempt) 9318) }
    ensures window { is_window (twelve 10 2) ≡ true }
    ensures past { is_window (twelve 10 3) ≡ false }
    ensures before { is_window (twelve 10 0) ≡ false }
    ensures eleven { is_window (twelve 11 1) ≡ false }
    ensures no_page { is_window (twelve 0 1) ≡ false }
    ensures no_list { is_window (opened 0 [] 10) ≡ false }
{}

/// The next list is shorter, and behind the last comes the first; each begins at its first page.
pub fn known_shorter()
    ensures once { shorter (opened 0 test_lists 1) ≡ record { place = 0; lists = test_lists; per_page = 1; list = 1; page = 1 } }
    ensures twice { shorter (record { place = 0; lists = test_lists; per_page = 1; list = 1; page = 2 }) ≡ opened 0 test_lists 1 }
    ensures rising { is_window (opened 0 (record { len = 1; rows = hit 0 1 plan 200 ∷ [] } ∷ test_lists) 10) ≡ false }
    ensures same { is_window (opened 0 (record { len = 2; rows = hit 0 1 plan 200 ∷ [] } ∷ test_lists) 10) ≡ false }
    ensures empty { is_window (opened 0 (record { len = 3; rows = [] } ∷ test_lists) 10) ≡ false }
{}
