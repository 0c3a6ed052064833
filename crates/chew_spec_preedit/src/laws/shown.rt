//! What a buffer shows.

ghost use Rattle.std.specs.Prelude.{◌≡◌, ◌+◌, ◌<◌, [], ◌∷◌, ◌++◌, ℕ, Contains, IsSome, List, Some, chars, length, nat_le, slice_get, true};
ghost use Rattle.chew_spec_phrasing.specs.Known.{attempt, be, piece, plan, survey};
ghost use Rattle.chew_spec_phrasing.specs.Usable.{Piece, phrase_len};
ghost use Rattle.chew_spec_preedit.specs.Cell.{Cell, Symbol, has_sound};
ghost use Rattle.chew_spec_preedit.specs.InTurn.{is_in_turn};
ghost use Rattle.chew_spec_preedit.specs.Known.{ce, mark, shi};
ghost use Rattle.chew_spec_preedit.specs.ShownText.{character_at, characters_of, shown_text};

/// Where each syllable's cell has a character of a piece, as many characters are shown as there are cells: a symbol itself,
/// and for a syllable the character of its piece.
pub fn each_cell_shows_a_character()
    ensures count { (pieces : List Piece) (cells : List Cell) → ((place : ℕ) → has_sound cells place ≡ true → IsSome (character_at pieces place))
        → length (characters_of pieces cells) ≡ length cells }
    ensures sound { (pieces : List Piece) (cells : List Cell) (place : ℕ) → ((at : ℕ) → has_sound cells at ≡ true → IsSome (character_at pieces at))
        → has_sound cells place ≡ true → slice_get (characters_of pieces cells) place ≡ character_at pieces place }
    ensures symbol { (pieces : List Piece) (cells : List Cell) (place byte : ℕ) → ((at : ℕ) → has_sound cells at ≡ true → IsSome (character_at pieces at))
        → slice_get cells place ≡ Some (Symbol byte) → slice_get (characters_of pieces cells) place ≡ Some byte }
{}

/// Of pieces that lie apart each shows its own characters at its cells.
pub fn each_piece_shows_its_own()
    ensures own { (pieces : List Piece) (piece : Piece) (k : ℕ)
        → is_in_turn (λ one later. nat_le (one.start + phrase_len one.phrase) later.start) pieces ≡ true → Contains pieces piece
        → k < phrase_len piece.phrase → character_at pieces (piece.start + k) ≡ slice_get (chars piece.phrase) k }
{}

/// 測試 and 是 around a mark.
pub fn known_shown()
    ensures parted { characters_of (piece 0 (survey ++ attempt) 9318 ∷ piece 3 be 9000 ∷ []) (ce ∷ shi ∷ mark ∷ shi ∷ []) ≡ 0x6E2C ∷ 0x8A66 ∷ 33 ∷ 0x662F ∷ [] }
    ensures adjacent { characters_of (piece 0 plan 200 ∷ piece 1 be 9000 ∷ []) (ce ∷ shi ∷ []) ≡ 0x7B56 ∷ 0x662F ∷ [] }
    ensures text { shown_text (piece 0 plan 200 ∷ []) (ce ∷ mark ∷ []) ≡ plan ++ (33 ∷ []) }
{}
