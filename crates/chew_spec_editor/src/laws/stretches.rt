//! Laws of what is learnt of single syllables.

ghost use Rattle.std.specs.Prelude.{◌≡◌, ℕ, suc, ◌+◌, ◌*◌, ◌<◌, ◌≤◌, ◌++◌, ◌∷◌, [], Contains, drop, flat_map, map, take, true, IsFalse, IsTrue, length, List, slice_get, Some};
ghost use Rattle.std.specs.List.{list_all};
ghost use Rattle.chew_spec_syllable.specs.Row.{Row};
ghost use Rattle.chew_spec_dictionary.specs.Call.{Call};
ghost use Rattle.chew_spec_phrasing.specs.Usable.{Piece, phrase_len};
ghost use Rattle.chew_spec_preedit.specs.Cell.{Cell, has_sound};
ghost use Rattle.chew_spec_editor.specs.Commits.{phrase_learnt};
ghost use Rattle.chew_spec_editor.specs.Invariant.{covers, is_piece};
ghost use Rattle.chew_spec_text.specs.Sample.{bytes_of};
ghost use Rattle.chew_spec_editor.specs.Sample.{plans};
ghost use Rattle.chew_spec_editor.specs.Learning.{Stretch, go_together, learns_of, stretch_of, stretches};

/// The stretches of single syllables are the longest ones: two that stand side by side don't go together. Each place of one
/// has a piece of one syllable, so that no longer piece lies in it, and no symbol.
pub fn stretches_are_the_longest()
    ensures apart { (breaks : List ℕ) (pieces : List Piece) (k : ℕ) (first second : Stretch) → IsTrue (list_all is_piece pieces)
        → slice_get (stretches breaks pieces) k ≡ Some first → slice_get (stretches breaks pieces) (suc k) ≡ Some second
        → IsFalse (go_together breaks first second) }
    ensures single { (breaks : List ℕ) (pieces : List Piece) (stretch : Stretch) (place : ℕ) → IsTrue (list_all is_piece pieces)
        → Contains (stretches breaks pieces) stretch → IsTrue stretch.is_single
        → stretch.start ≤ place → place < stretch.start + phrase_len stretch.phrase
        → (piece : Piece) × Contains pieces piece × (piece.start ≡ place) × (phrase_len piece.phrase ≡ 1) }
    ensures sounds { (cells : List Cell) (breaks : List ℕ) (pieces : List Piece) (stretch : Stretch) (place : ℕ) → IsTrue (covers cells pieces)
        → IsTrue (list_all is_piece pieces) → Contains (stretches breaks pieces) stretch
        → stretch.start ≤ place → place < stretch.start + phrase_len stretch.phrase → IsTrue (has_sound cells place) }
{}

/// A stretch is learnt in parts from the left, which joined are its phrase: each but the last has 11 characters, and the
/// last has 1 to 11.
pub fn parts_have_eleven()
    ensures joined { (system : List Row) (cells : List Cell) (breaks : List ℕ) (pieces : List Piece) (stretch : Stretch)
        → IsTrue (list_all is_piece pieces) → Contains (stretches breaks pieces) stretch
        → flat_map phrase_learnt (learns_of system cells stretch) ≡ stretch.phrase }
    ensures full { (system : List Row) (cells : List Cell) (breaks : List ℕ) (pieces : List Piece) (stretch : Stretch) (k : ℕ) (call : Call)
        → IsTrue (list_all is_piece pieces) → Contains (stretches breaks pieces) stretch → slice_get (learns_of system cells stretch) k ≡ Some call
        → suc k < length (learns_of system cells stretch) → phrase_len (phrase_learnt call) ≡ 11 }
    ensures last { (system : List Row) (cells : List Cell) (breaks : List ℕ) (pieces : List Piece) (stretch : Stretch) (k : ℕ) (call : Call)
        → IsTrue (list_all is_piece pieces) → Contains (stretches breaks pieces) stretch → slice_get (learns_of system cells stretch) k ≡ Some call
        → suc k ≡ length (learns_of system cells stretch)
        → (1 ≤ phrase_len (phrase_learnt call)) × (phrase_len (phrase_learnt call) ≤ 11)
        × (phrase_len stretch.phrase ≡ 11 * k + phrase_len (phrase_learnt call)) }
{}

/// Known stretches of 策, a piece of one syllable each: those that follow one another go together, unless a break parts them.
pub fn known_stretches()
    ensures together { stretches [] (plans 2) ≡ record { start = 0; phrase = bytes_of "策策"; is_single = true } ∷ [] }
    ensures parted { stretches (1 ∷ []) (plans 2) ≡ map stretch_of (plans 2) }
    ensures away { stretches [] (take 1 (plans 3) ++ drop 2 (plans 3)) ≡ map stretch_of (take 1 (plans 3) ++ drop 2 (plans 3)) }
{}
