//! What a window holds and shows, and what its moves do.

ghost use Rattle.std.specs.Prelude.{◌≡◌, ◌↔◌, ◌⊎◌, ◌+◌, ◌-◌, ◌*◌, ◌<◌, ◌≤◌, ℕ, Contains, IsTrue, List, None, Some, flat_map, length, slice_get, true};
ghost use Rattle.std.specs.Fn.{iterate};
ghost use Rattle.std.specs.List.{list_all, range_with_len};
ghost use Rattle.chew_spec_dictionary.specs.Call.{Hit};
ghost use Rattle.chew_spec_preedit.specs.Window.{CandidateList, Window, candidate_lists, candidates_of, choice_of, has_candidate, is_falling, is_whole_at, is_window, next_page, on_page, opened, page_before, pages_of, picked, rows_shown, shorter};

/// The lists for a place of a run: of each length from 1 to 11 whose cells lie in the run and have no break strictly inside, all
/// rows, where there are any; each length once, the longest first.
pub fn lists_hold_every_candidate()
    ensures which { (rows : List Hit) (breaks : List ℕ) (n place : ℕ) (list : CandidateList)
        → Contains (candidate_lists rows breaks n place) list
        ↔ ((1 ≤ list.len) × (list.len ≤ 11) × (list.len ≤ n - place) × (is_whole_at breaks place list.len ≡ true)
        × (list ≡ candidates_of rows place list.len) × (has_candidate list ≡ true)) }
    ensures falling { (rows : List Hit) (breaks : List ℕ) (n place : ℕ) → is_falling (candidate_lists rows breaks n place) ≡ true }
    ensures filled { (rows : List Hit) (breaks : List ℕ) (n place : ℕ) → list_all has_candidate (candidate_lists rows breaks n place) ≡ true }
{}

/// The pages of a list one after another are the list, each of them has a candidate, and none more than a page has.
pub fn pages_are_the_list()
    ensures all { (window : Window) → 1 ≤ window.per_page
        → flat_map (λ page. on_page (record window { page = page })) (range_with_len 1 (pages_of window)) ≡ rows_shown window }
    ensures some { (window : Window) → IsTrue (is_window window) → 0 < length (on_page window) }
    ensures most { (window : Window) → length (on_page window) ≤ window.per_page }
{}

/// Each move leaves a window. A page back undoes a page on, and the other way round.
pub fn moves_leave_a_window()
    ensures opened { (place : ℕ) (lists : List CandidateList) (per_page : ℕ) → is_falling lists ≡ true → list_all has_candidate lists ≡ true
        → 0 < length lists → 1 ≤ per_page → per_page ≤ 10 → IsTrue (is_window (opened place lists per_page)) }
    ensures shorter { (window : Window) → IsTrue (is_window window) → IsTrue (is_window (shorter window)) }
    ensures next { (window : Window) → IsTrue (is_window window) → IsTrue (is_window (next_page window)) }
    ensures before { (window : Window) → IsTrue (is_window window) → IsTrue (is_window (page_before window)) }
    ensures back { (window : Window) → IsTrue (is_window window) → page_before (next_page window) ≡ window }
    ensures on { (window : Window) → IsTrue (is_window window) → next_page (page_before window) ≡ window }
{}

/// From the first page on the pages follow one another up to the last, behind which the first comes again; and so do the lists.
pub fn moves_go_round()
    ensures pages { (window : Window) (k : ℕ) → 1 ≤ window.page → window.page + k ≤ pages_of window
        → iterate next_page k window ≡ record window { page = window.page + k } }
    ensures first { (window : Window) → window.page ≡ pages_of window → next_page window ≡ record window { page = 1 } }
    ensures lists { (place : ℕ) (lists : List CandidateList) (per_page k : ℕ) → k < length lists
        → iterate shorter k (opened place lists per_page) ≡ record (opened place lists per_page) { list = k } }
    ensures longest { (window : Window) → window.list + 1 ≡ length window.lists → shorter window ≡ opened window.place window.lists window.per_page }
{}

/// A pick is a choice at the window's place, of the candidate that is so many behind those of the pages before; there is one
/// for each candidate of the page, and no other.
pub fn picks_are_on_the_page()
    ensures some { (window : Window) (k : ℕ) (hit : Hit) → k < window.per_page
        → slice_get (rows_shown window) ((window.page - 1) * window.per_page + k) ≡ Some hit → picked window k ≡ Some (choice_of window.place hit) }
    ensures none { (window : Window) (k : ℕ) → (window.per_page ≤ k) ⊎ (length (rows_shown window) ≤ (window.page - 1) * window.per_page + k)
        → picked window k ≡ None }
{}
