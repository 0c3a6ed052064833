//! Known answers of the dictionary.

ghost use Rattle.std.specs.Prelude.{◌≡◌, ℕ, ◌-◌, ◌^◌, List, [], ◌∷◌, ◌++◌, true, false};
ghost use Rattle.chew_spec_dictionary.specs.Call.{Hit, Look, Learn, Forget, Hide, Freeze, Install, Rows, Learned, Full, Forgot, NotThere, Hid, Frozen, Installed};
ghost use Rattle.chew_spec_dictionary.specs.History.{after, replies};
ghost use Rattle.chew_spec_dictionary.specs.Known.{attempt, be, by, ce_key, ce_shi_key, hit, learn_test, nothing_with_cap, plan, row_with, shi_key, survey, test};
ghost use Rattle.chew_spec_dictionary.specs.Look.{hits_of};

/// Known replies to learns and forgets: 測試 learnt twice, three pairs learnt where there is room for two, and
/// a pair forgotten twice.
pub fn known_replies()
    ensures learnt_twice { replies (nothing_with_cap 65_536) (by 1 learn_test ∷ by 1 learn_test ∷ []) 1 ≡ Learned 9318 0 ∷ Learned 9319 1 ∷ [] }
    ensures life { (after (nothing_with_cap 65_536) (by 1 learn_test ∷ by 1 learn_test ∷ [])).dictionary.life ≡ 2 }
    ensures full { replies (nothing_with_cap 2) (by 1 (Learn ce_key survey 0 5) ∷ by 2 (Learn shi_key attempt 7 9) ∷ by 1 learn_test ∷ []) 1
        ≡ Learned 1 0 ∷ Full ∷ [] }
    ensures forgotten_twice { replies (nothing_with_cap 2) (by 1 (Learn ce_key survey 0 5) ∷ by 1 (Forget ce_key survey) ∷ by 1 (Forget ce_key survey)
        ∷ []) 1 ≡ Learned 1 0 ∷ Forgot ∷ NotThere ∷ [] }
{}

/// Known replies to freezes and installs: two freezes, an install, and a freeze behind them.
pub fn known_snapshots()
    ensures frozen { replies (nothing_with_cap 2) (by 1 (Look shi_key) ∷ by 0 Freeze ∷ by 1 (Look shi_key) ∷ by 0 Freeze ∷ by 0 (Install 1)
        ∷ by 0 Freeze ∷ []) 0 ≡ Frozen 1 ∷ Frozen 1 ∷ Installed ∷ Frozen 5 ∷ [] }
{}

/// Known replies to hides: a pair hidden twice, forgotten and forgotten again; one that finds no room; and
/// 測試 learnt, hidden, looked up and learnt again, while 策是 rises by what it has itself.
pub fn known_hides()
    ensures hidden_twice { replies (nothing_with_cap 2) (by 1 (Hide ce_shi_key test) ∷ by 1 (Hide ce_shi_key test) ∷ by 1 (Forget ce_shi_key test)
        ∷ by 1 (Forget ce_shi_key test) ∷ []) 1 ≡ Hid ∷ NotThere ∷ Forgot ∷ NotThere ∷ [] }
    ensures life { (after (nothing_with_cap 2) (by 1 (Hide ce_shi_key test) ∷ [])).dictionary.life ≡ 0 }
    ensures pairs { (after (nothing_with_cap 2) (by 1 (Hide ce_shi_key test) ∷ [])).dictionary.pairs ≡ row_with ce_shi_key test 0 (2 ^ 64 - 1) ∷ [] }
    ensures full { replies (nothing_with_cap 1) (by 1 (Learn ce_key plan 200 200) ∷ by 1 (Hide ce_shi_key test) ∷ []) 1 ≡ Learned 200 0 ∷ Full ∷ [] }
    ensures looked_up { replies (nothing_with_cap 2) (by 1 learn_test ∷ by 1 (Hide ce_shi_key test) ∷ by 1 (Look ce_shi_key) ∷ by 1 learn_test
        ∷ by 1 (Look ce_shi_key) ∷ []) 1
        ≡ Learned 9318 0 ∷ Hid ∷ Rows (hit 0 2 test 9318 true ∷ []) ∷ Learned 9318 1 ∷ Rows (hit 0 2 test 9318 false ∷ []) ∷ [] }
    ensures not_counted { replies (nothing_with_cap 2) (by 1 (Learn ce_shi_key (plan ++ be) 0 0) ∷ by 1 learn_test ∷ by 1 (Hide ce_shi_key test)
        ∷ by 1 (Learn ce_shi_key (plan ++ be) 0 0) ∷ []) 1 ≡ Learned 1 0 ∷ Learned 9318 1 ∷ Hid ∷ Learned 2 2 ∷ [] }
{}

/// The rows of a run of two syllables, a row for each of its intervals, one of them hidden, and a third row for
/// the last: by start, then length, then frequency falling, then phrase bytes; and a row that has a hidden one's
/// time and is not hidden, since its key has one syllable.
pub fn known_hits()
    ensures by_interval { hits_of (row_with shi_key (0xE4 ∷ 0xBA ∷ 0x8B ∷ []) 50 3 ∷ row_with shi_key be 50 2 ∷ row_with shi_key attempt 70 1
        ∷ row_with ce_key survey 10 0 ∷ row_with ce_shi_key test 9318 (2 ^ 64 - 1) ∷ []) ce_shi_key
        ≡ hit 0 1 survey 10 false ∷ hit 0 2 test 9318 true ∷ hit 1 1 attempt 70 false ∷ hit 1 1 (0xE4 ∷ 0xBA ∷ 0x8B ∷ []) 50 false
        ∷ hit 1 1 be 50 false ∷ [] }
    ensures one_syllable { hits_of (row_with ce_key survey 10 (2 ^ 64 - 1) ∷ []) ce_key ≡ hit 0 1 survey 10 false ∷ [] }
{}
