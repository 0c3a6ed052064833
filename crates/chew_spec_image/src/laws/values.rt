//! Known images.

ghost use Rattle.std.specs.Prelude.{◌≡◌, ℕ, ◌++◌, List, [], ◌∷◌, codes, length, map, take, replicate, Ok, Some};
ghost use Rattle.std.specs.List.{range_with_len};
ghost use Rattle.chew_spec_syllable.specs.Row.{image_cmp};
ghost use Rattle.chew_spec_dictionary.specs.FiveRows.{five_rows};
ghost use Rattle.chew_spec_dictionary.specs.Order.{in_order};
ghost use Rattle.chew_spec_image.specs.Image.{image};
ghost use Rattle.chew_spec_image.specs.Reading.{counts_in, image_place, image_reading};
ghost use Rattle.chew_spec_image.specs.Sample.{five_rows_image, one_row, one_row_image};

/// The image of one row has these 94 bytes, which stand for the row.
pub fn known_image()
    ensures image { image (one_row ∷ []) ≡ one_row_image }
    ensures length { length one_row_image ≡ 94 }
    ensures reading { image_reading one_row_image ≡ Ok (one_row ∷ []) }
{}

/// The image of no rows is a header and node 0, whose children would be from node 1 on. That of 是, 試, 測, 策 and 測試 has
/// four nodes and 18 bytes of text, and stands for these rows.
pub fn known_counts()
    ensures none { image [] ≡ codes "CHEWTRI1" ++ (replicate 4 0 ++ (1 ∷ (replicate 7 0 ++ (replicate 4 0 ++ (1 ∷ replicate 11 0))))) }
    ensures no_rows { image_reading (image []) ≡ Ok [] }
    ensures five { counts_in five_rows_image ≡ record { rows = 5; nodes = 4; text = 18 } }
    ensures five_rows { image_reading five_rows_image ≡ Ok (in_order image_cmp five_rows) }
{}

/// Cut within the first eight bytes it is faulty at 0, cut anywhere else at its length, and with a byte more at 94.
pub fn known_cuts()
    ensures magic { map (λ n. image_place (take n one_row_image)) (range_with_len 0 8) ≡ replicate 8 (Some 0) }
    ensures length { map (λ n. image_place (take n one_row_image)) (range_with_len 8 86) ≡ map Some (range_with_len 8 86) }
    ensures longer { (byte : ℕ) → image_place (one_row_image ++ byte ∷ []) ≡ Some 94 }
{}
