//! Laws and known values of the definitions.

ghost use Rattle.std.specs.Prelude.{◌≡◌, ◌≢◌, ◌↔◌, ◌⊎◌, ◌+◌, ◌++◌, ◌<◌, ◌≤◌, ◌&&◌, ◌||◌, ℕ, [], ◌∷◌, false, not, flat_map, length, map, sum, true, All, AllPairs, Any, Contains, IsPermutation, IsSorted, List, Option, Some, None};
ghost use Rattle.std.specs.Cmp.{IsTotalOrder};
ghost use Rattle.std.specs.List.{list_any};
ghost use Rattle.std.specs.declared.cmp.Ordering.TheVariants.{Equal};
ghost use Rattle.chew_spec_syllable.specs.Row.{Row, no_pair_twice};
ghost use Rattle.chew_spec_dictionary.specs.Call.{Hit};
ghost use Rattle.chew_spec_dictionary.specs.FiveRows.{ce4, five_rows, row_at_start, shi4};
ghost use Rattle.chew_spec_dictionary.specs.HiddenPairs.{is_hidden, shown_rows};
ghost use Rattle.chew_spec_dictionary.specs.Look.{Interval, codes_at, hits_of, intervals, shown_cmp};
ghost use Rattle.chew_spec_dictionary.specs.System.{has_single, rows_under};
ghost use Rattle.chew_spec_phrasing.specs.Best.{IsBest, best_of, best_pieces, score_cmp, segmentation_cmp};
ghost use Rattle.chew_spec_phrasing.specs.CanSegment.{CanSegment, Shows, interval_of};
ghost use Rattle.chew_spec_phrasing.specs.CombinedRows.{combined, combined_hits, found_rows, has_phrase, is_hit_at, shown_hit_cmp, unsorted_hits, shown_hit};
ghost use Rattle.chew_spec_phrasing.specs.Known.{attempt, be, be_times, choice, five_hits, four_syllables, hidden_row, piece, plan, survey, three_syllables};
ghost use Rattle.chew_spec_phrasing.specs.Score.{gain, loss};
ghost use Rattle.chew_spec_phrasing.specs.Search.{HasFirst, Improves, IsCompletion};
ghost use Rattle.chew_spec_phrasing.specs.Segmentation.{AddsUp, GivesOwn, IsSegmentation, freqs, lengths, lengths_of, pieces_from, segmentations, starts, starts_from};
ghost use Rattle.chew_spec_phrasing.specs.Usable.{Choice, HaveOwnLengths, IsByRow, IsFirst, Piece, choice_end, is_exactly, is_unbroken, keeps_choices, meets, phrase_len, piece_at, piece_of_choice, piece_of_hit};

/// The lengths of n are the lists of lengths from 1 that add up to n, each of them and no other.
pub fn lengths_add_up()
    ensures all_of_them { (n : ℕ) (lens : List ℕ) → Contains (lengths_of n) lens ↔ AddsUp n lens }
{}

/// The pieces of a list of lengths: one for each, as long as it says, each where the one before it ends.
pub fn pieces_follow_on()
    ensures count { (usable : Interval → Option Piece) (start : ℕ) (lens : List ℕ) (pieces : List Piece)
        → pieces_from usable start lens ≡ Some pieces → length pieces ≡ length lens }
    ensures lengths { (usable : Interval → Option Piece) → GivesOwn usable → (start : ℕ) (lens : List ℕ) (pieces : List Piece)
        → pieces_from usable start lens ≡ Some pieces → lengths pieces ≡ lens }
    ensures starts { (usable : Interval → Option Piece) → GivesOwn usable → (start : ℕ) (lens : List ℕ) (pieces : List Piece)
        → pieces_from usable start lens ≡ Some pieces → starts pieces ≡ starts_from start lens }
    ensures own { (rows : List Hit) (breaks : List ℕ) (choices : List Choice) → HaveOwnLengths rows
        → GivesOwn (piece_at rows breaks choices) }
{}

/// All segmentations of n syllables: their lengths add up to n, and the lengths fix the pieces.
pub fn segmentations_add_up()
    ensures all_of_them { (usable : Interval → Option Piece) → GivesOwn usable → (n : ℕ) (pieces : List Piece)
        → Contains (segmentations usable n) pieces ↔ IsSegmentation usable 0 n pieces }
    ensures lengths { (usable : Interval → Option Piece) → GivesOwn usable → (n : ℕ) (pieces : List Piece)
        → Contains (segmentations usable n) pieces → sum (lengths pieces) ≡ n }
    ensures fixed { (usable : Interval → Option Piece) (start n : ℕ) (pieces other : List Piece)
        → IsSegmentation usable start n pieces → IsSegmentation usable start n other
        → lengths pieces ≡ lengths other → pieces ≡ other }
{}

/// The best segmentation, where there is one, is the segmentation that no other exceeds.
pub fn best_is_unbeaten()
    ensures some { (rows : List Hit) (breaks : List ℕ) (choices : List Choice) (n : ℕ) (best : List Piece)
        → HaveOwnLengths rows → (best_of rows breaks choices n ≡ Some best)
        ↔ IsBest (piece_at rows breaks choices) n best }
    ensures none { (rows : List Hit) (breaks : List ℕ) (choices : List Choice) (n : ℕ) → HaveOwnLengths rows
        → (best_of rows breaks choices n ≡ None)
        ↔ ((pieces : List Piece) → IsSegmentation (piece_at rows breaks choices) 0 n pieces → ⊥) }
    ensures unique { (usable : Interval → Option Piece) (n : ℕ) (best other : List Piece) → IsBest usable n best
        → IsBest usable n other → best ≡ other }
{}

/// What is compared: first the scores, of which the best one's is the greatest, and then, where these tie, the first
/// lengths that differ, of which the best one's is longer.
pub fn best_is_greatest_then_longest()
    ensures order { IsTotalOrder segmentation_cmp }
    ensures greatest { (usable : Interval → Option Piece) (n : ℕ) (best other : List Piece) → IsBest usable n best
        → IsSegmentation usable 0 n other
        → gain (lengths other) (freqs other) + loss (lengths best) ≤ gain (lengths best) (freqs best) + loss (lengths other) }
    ensures longest { (usable : Interval → Option Piece) (n : ℕ) (best other : List Piece) (before : List ℕ) (len other_len : ℕ) (rest other_rest : List ℕ)
        → IsBest usable n best → IsSegmentation usable 0 n other → score_cmp best other ≡ Equal
        → lengths best ≡ before ++ (len ∷ rest) → lengths other ≡ before ++ (other_len ∷ other_rest) → other_len ≤ len }
{}

/// The piece of an interval: exactly a choice's has the choice's phrase and kept frequency, whatever rows and breaks
/// there are; any other has those of the first combined row that agrees with the choices, and none where no row will
/// do or the interval is longer than 11.
pub fn usable_intervals()
    ensures chosen { (rows : List Hit) (breaks : List ℕ) (choices : List Choice) (n : ℕ) (choice : Choice)
        → CanSegment rows choices n → Contains choices choice
        → piece_at rows breaks choices (interval_of choice) ≡ Some (piece_of_choice choice) }
    ensures by_row { (rows : List Hit) (breaks : List ℕ) (choices : List Choice) (at : Interval) (piece : Piece)
        → list_any (is_exactly at) choices ≡ false → piece_at rows breaks choices at ≡ Some piece
        → IsByRow rows breaks choices at piece }
    ensures first { (rows : List Hit) (breaks : List ℕ) (choices : List Choice) (at : Interval) (piece : Piece)
        → list_any (is_exactly at) choices ≡ false → piece_at rows breaks choices at ≡ Some piece
        → (row : Hit) × IsFirst (λ hit. is_hit_at at hit && keeps_choices choices at hit.phrase) rows row × (piece ≡ piece_of_hit row) }
    ensures usable { (rows : List Hit) (breaks : List ℕ) (choices : List Choice) (at : Interval) (piece : Piece)
        → list_any (is_exactly at) choices ≡ false → IsByRow rows breaks choices at piece
        → (first : Piece) × (piece_at rows breaks choices at ≡ Some first) }
    ensures long { (rows : List Hit) (breaks : List ℕ) (choices : List Choice) (at : Interval)
        → All (λ choice. phrase_len choice.phrase ≤ 11) choices → 11 < at.len
        → piece_at rows breaks choices at ≡ None }
{}

/// Every segmentation has each choice's characters at the choice's cells, and so has the best one.
pub fn choices_are_shown()
    ensures shown { (rows : List Hit) (breaks : List ℕ) (choices : List Choice) (n : ℕ) (pieces : List Piece) (choice : Choice)
        → CanSegment rows choices n → IsSegmentation (piece_at rows breaks choices) 0 n pieces
        → Contains choices choice → Any (λ piece. Shows piece choice) pieces }
{}

/// Where no break lies strictly inside a choice, a piece begins at each break in the run.
pub fn breaks_part_pieces()
    ensures parted { (rows : List Hit) (breaks : List ℕ) (choices : List Choice) (n : ℕ) (pieces : List Piece) (place : ℕ)
        → HaveOwnLengths rows → All (λ choice. is_unbroken breaks (interval_of choice) ≡ true) choices
        → IsSegmentation (piece_at rows breaks choices) 0 n pieces → Contains breaks place → place < n
        → Contains (starts pieces) place }
{}

/// What a search goes by: a segmentation of n syllables is a first piece of 1 to n syllables and then a segmentation of
/// the rest, and of none it is no pieces. What a search from the start holds in the end is the best one.
pub fn segmentations_by_first_piece()
    ensures first { (usable : Interval → Option Piece) → GivesOwn usable → (start n : ℕ) (pieces : List Piece) → 0 < n
        → IsSegmentation usable start n pieces ↔ HasFirst usable start n pieces }
    ensures none { (usable : Interval → Option Piece) (start : ℕ) (pieces : List Piece)
        → IsSegmentation usable start 0 pieces ↔ (pieces ≡ []) }
    ensures best { (rows : List Hit) (breaks : List ℕ) (choices : List Choice) (n : ℕ) (held : Option (List Piece))
        → HaveOwnLengths rows → Improves (IsCompletion (piece_at rows breaks choices) [] 0 n) None held
        → best_of rows breaks choices n ≡ held }
{}

/// Of pieces with the same lengths in some order, the better ones stay better behind any others: only the frequencies and
/// the order of the lengths count.
pub fn same_lengths_compare_alike()
    ensures behind { (before pieces other : List Piece) → IsPermutation (lengths pieces) (lengths other)
        → segmentation_cmp (before ++ pieces) (before ++ other) ≡ segmentation_cmp pieces other }
{}

/// Where each cell outside the choices has a row of length 1, and the choices lie apart in the run, there is a
/// segmentation, and so a best one.
pub fn best_is_there()
    ensures some { (rows : List Hit) (breaks : List ℕ) (choices : List Choice) (n : ℕ) → CanSegment rows choices n
        → (best : List Piece) × (best_of rows breaks choices n ≡ Some best) }
    ensures best { (rows : List Hit) (breaks : List ℕ) (choices : List Choice) (n : ℕ) → CanSegment rows choices n
        → IsBest (piece_at rows breaks choices) n (best_pieces rows breaks choices n) }
{}

/// The combined rows of a key: the user's that are not hidden, and those of the system whose phrase the user has not for
/// it, hidden or not, in the order in which they are shown. Where no pair stands twice in the system's rows nor in the
/// user's, each phrase stands once; and where none does in the user's, a row of the user's phrase is the user's, and the
/// phrase of a hidden row is shown nowhere.
pub fn combined_rows_hide()
    ensures sorted { (system user : List Row) (key : List ℕ) → IsSorted shown_cmp (combined system user key) }
    ensures once { (system user : List Row) (key : List ℕ) → no_pair_twice system ≡ true → no_pair_twice user ≡ true
        → AllPairs (λ row other. row.phrase ≢ other.phrase) (combined system user key) }
    ensures user { (system user : List Row) (key : List ℕ) (row : Row) → Contains user row → row.key ≡ key → is_hidden row ≡ false
        → Contains (combined system user key) row }
    ensures system { (system user : List Row) (key : List ℕ) (row : Row) → Contains system row → row.key ≡ key
        → has_phrase (rows_under user key) row.phrase ≡ false → Contains (combined system user key) row }
    ensures either { (system user : List Row) (key : List ℕ) (row : Row) → Contains (combined system user key) row
        → (row.key ≡ key) × ((Contains user row × (is_hidden row ≡ false)) ⊎ (Contains system row × (has_phrase (rows_under user key) row.phrase ≡ false))) }
    ensures own { (system user : List Row) (key : List ℕ) (mine row : Row) → no_pair_twice user ≡ true → Contains user mine
        → mine.key ≡ key → Contains (combined system user key) row → row.phrase ≡ mine.phrase → row ≡ mine }
    ensures hidden { (system user : List Row) (key : List ℕ) (mine : Row) → no_pair_twice user ≡ true → Contains user mine
        → mine.key ≡ key → is_hidden mine ≡ true → has_phrase (combined system user key) mine.phrase ≡ false }
    ensures phrases { (system user : List Row) (key phrase : List ℕ)
        → has_phrase (combined system user key) phrase
        ≡ (has_phrase (shown_rows (rows_under user key)) phrase
        || (not (has_phrase (rows_under user key) phrase) && has_phrase (rows_under system key) phrase)) }
{}

/// From what a look-up found come the combined rows of the user's dictionary itself, interval by interval. In any order
/// and then sorted, the hits of an interval of the run are its combined rows.
pub fn combined_hits_by_interval()
    ensures same { (system user : List Row) (run : List ℕ)
        → combined_hits system run (hits_of user run) ≡ flat_map (λ at. map (shown_hit at) (combined system user (codes_at run at))) (intervals (length run)) }
    ensures sorted { (system : List Row) (run : List ℕ) (user : List Hit) (at : Interval) (hits : List Hit)
        → length (codes_at run at) ≡ at.len → IsPermutation (unsorted_hits system run user at) hits → IsSorted shown_hit_cmp hits
        → hits ≡ map (shown_hit at) (combined system (found_rows run user at) (codes_at run at)) }
{}

/// The combined rows of a run can be segmented, where the system has a row for each of its syllables by itself, its rows
/// and those that were found are as long as their phrases, and the choices lie in the run and apart.
pub fn combined_rows_can_be_segmented()
    ensures can { (system : List Row) (run : List ℕ) (hits : List Hit) (choices : List Choice)
        → All (λ row. phrase_len row.phrase ≡ length row.key) system → HaveOwnLengths hits
        → All (λ code. has_single system code ≡ true) run → All (λ choice. 0 < phrase_len choice.phrase) choices
        → All (λ choice. choice_end choice ≤ length run) choices
        → AllPairs (λ choice other. meets (interval_of choice) other ≡ false) choices
        → CanSegment (combined_hits system run hits) choices (length run) }
{}

/// Known scores, as gain less loss.
pub fn known_scores()
    ensures two_and_two { gain (2 ∷ (2 ∷ [])) (50 ∷ (50 ∷ [])) ≡ 16_100 + loss (2 ∷ (2 ∷ [])) }
    ensures three_and_one { gain (3 ∷ (1 ∷ [])) (300 ∷ (512 ∷ [])) ≡ 16_101 + loss (3 ∷ (1 ∷ [])) }
    ensures two_and_one { gain (2 ∷ (1 ∷ [])) (40 ∷ (0 ∷ [])) ≡ 11_940 + loss (2 ∷ (1 ∷ [])) }
    ensures one_and_two { gain (1 ∷ (2 ∷ [])) (0 ∷ (40 ∷ [])) ≡ 11_940 + loss (1 ∷ (2 ∷ [])) }
    ensures long_run { gain (10 ∷ 10 ∷ 10 ∷ 9 ∷ []) (0 ∷ 0 ∷ 0 ∷ 0 ∷ []) ≡ 96_700 + loss (10 ∷ 10 ∷ 10 ∷ 9 ∷ []) }
    ensures one_phrase { gain (2 ∷ []) (9318 ∷ []) ≡ 23_318 + loss (2 ∷ []) }
    ensures two_characters { gain (1 ∷ (1 ∷ [])) (200 ∷ (9000 ∷ [])) ≡ 8_017 + loss (1 ∷ (1 ∷ [])) }
    ensures counts_nothing { gain (1 ∷ []) (511 ∷ []) ≡ 7_000 + loss (1 ∷ []) }
    ensures counts_one { gain (1 ∷ []) (512 ∷ []) ≡ 7_001 + loss (1 ∷ []) }
{}

/// Known best segmentations: the greater score, and where scores tie the one that begins with the longer piece.
pub fn known_best()
    ensures three_and_one { best_of four_syllables [] [] 4 ≡ Some (piece 0 (be_times 3) 300 ∷ piece 3 be 512 ∷ []) }
    ensures two_and_one { best_of three_syllables [] [] 3 ≡ Some (piece 0 (be_times 2) 40 ∷ piece 2 be 0 ∷ []) }
{}

/// The combined rows of a dictionary of 測, 策, 是, 試 and 測試, where the user has none.
pub fn known_combined_rows()
    ensures ce { combined five_rows [] (ce4 ∷ [])
        ≡ row_at_start (ce4 ∷ []) plan 200 ∷ row_at_start (ce4 ∷ []) survey 100 ∷ [] }
    ensures shi { combined five_rows [] (shi4 ∷ [])
        ≡ row_at_start (shi4 ∷ []) be 9000 ∷ row_at_start (shi4 ∷ []) attempt 300 ∷ [] }
    ensures ce_shi { combined five_rows [] (ce4 ∷ shi4 ∷ []) ≡ row_at_start (ce4 ∷ shi4 ∷ []) (survey ++ attempt) 9318 ∷ [] }
    ensures hits { combined_hits five_rows (ce4 ∷ shi4 ∷ []) [] ≡ five_hits }
    ensures own { combined five_rows (row_at_start (ce4 ∷ []) plan 7 ∷ []) (ce4 ∷ [])
        ≡ row_at_start (ce4 ∷ []) survey 100 ∷ row_at_start (ce4 ∷ []) plan 7 ∷ [] }
    ensures hidden { combined five_rows (hidden_row (ce4 ∷ shi4 ∷ []) (survey ++ attempt) 9318 ∷ []) (ce4 ∷ shi4 ∷ []) ≡ [] }
    ensures hidden_beside { combined five_rows (hidden_row (ce4 ∷ shi4 ∷ []) (plan ++ attempt) 1 ∷ []) (ce4 ∷ shi4 ∷ [])
        ≡ row_at_start (ce4 ∷ shi4 ∷ []) (survey ++ attempt) 9318 ∷ [] }
    ensures single { combined five_rows (hidden_row (shi4 ∷ []) be 5 ∷ []) (shi4 ∷ [])
        ≡ row_at_start (shi4 ∷ []) attempt 300 ∷ hidden_row (shi4 ∷ []) be 5 ∷ [] }
    ensures best { best_of five_hits [] [] 2 ≡ Some (piece 0 (survey ++ attempt) 9318 ∷ []) }
{}

/// What a break and choices make of the best segmentation of these rows: a break parts it; 測試 agrees with 測, and not
/// with 策; and 策試, which has no row, is shown where it was chosen.
pub fn known_choices()
    ensures parted { best_of five_hits (1 ∷ []) [] 2 ≡ Some (piece 0 plan 200 ∷ piece 1 be 9000 ∷ []) }
    ensures agrees { best_of five_hits [] (choice 0 survey 100 ∷ []) 2 ≡ Some (piece 0 (survey ++ attempt) 9318 ∷ []) }
    ensures disagrees { best_of five_hits [] (choice 0 plan 200 ∷ []) 2 ≡ Some (piece 0 plan 200 ∷ piece 1 be 9000 ∷ []) }
    ensures chosen { best_of five_hits [] (choice 0 (plan ++ attempt) 1 ∷ []) 2 ≡ Some (piece 0 (plan ++ attempt) 1 ∷ []) }
    ensures can { CanSegment five_hits (choice 0 survey 100 ∷ []) 2 }
{}
