//! A known fault of each kind, in images in which some bytes are changed.

ghost use Rattle.std.specs.Prelude.{◌≡◌, ℕ, ◌++◌, List, [], ◌∷◌, map, replicate, Ok, None, Some};
ghost use Rattle.chew_spec_image.specs.Reading.{image_place, image_reading};
ghost use Rattle.chew_spec_image.specs.Sample.{chain, five_rows_image, one_row, one_row_fields, one_row_image, patched, spoiled_from};

/// The first faulty field is told, in the order in which fields are read: where the image of one row is spoiled from a
/// field on, it is that field. The row's time has no rule.
pub fn known_order_of_faults()
    ensures fields { map (λ place. image_place (spoiled_from one_row_image place)) one_row_fields ≡ map Some one_row_fields }
    ensures time { image_reading (patched one_row_image 80 (replicate 8 0xFF)) ≡ Ok (record one_row { time = 18_446_744_073_709_551_615 } ∷ []) }
{}

/// The header: another magic, 250,001 rows, no node, more nodes than 11 a row and one, more text than 44 bytes a row,
/// and a length that is not that of the parts. What is just within its limit is a fault of the length.
pub fn known_header_faults()
    ensures magic { image_place (patched one_row_image 7 (0x32 ∷ [])) ≡ Some 0 }
    ensures rows { image_place (patched one_row_image 8 (0x91 ∷ 0xD0 ∷ 0x03 ∷ 0x00 ∷ [])) ≡ Some 8 }
    ensures most_rows { image_place (patched one_row_image 8 (0x90 ∷ 0xD0 ∷ 0x03 ∷ 0x00 ∷ [])) ≡ Some 94 }
    ensures no_node { image_place (patched one_row_image 12 (0 ∷ [])) ≡ Some 12 }
    ensures nodes { image_place (patched one_row_image 12 (13 ∷ [])) ≡ Some 12 }
    ensures most_nodes { image_place (patched one_row_image 12 (12 ∷ [])) ≡ Some 94 }
    ensures text { image_place (patched one_row_image 16 (45 ∷ [])) ≡ Some 16 }
    ensures most_text { image_place (patched one_row_image 16 (44 ∷ [])) ≡ Some 94 }
    ensures too_long { image_place (patched one_row_image 16 (5 ∷ [])) ≡ Some 93 }
{}

/// The codes of nodes: of node 0, a node that no earlier one has as a child, a code that is no syllable's, and one that
/// is below or as that of the child before it. A first child's code is free of the latter, as that of 測試 is, which is
/// below that of 測.
pub fn known_faults_of_codes()
    ensures root { image_place (patched one_row_image 20 (0x04 ∷ 0x22 ∷ [])) ≡ Some 20 }
    ensures no_child { image_place (patched one_row_image 22 (0 ∷ [])) ≡ Some 36 }
    ensures no_code { image_place (patched one_row_image 36 (0x05 ∷ 0x28 ∷ [])) ≡ Some 36 }
    ensures below { image_place (patched (patched five_rows_image 36 (0x1C ∷ 0x28 ∷ [])) 52 (0x04 ∷ 0x22 ∷ [])) ≡ Some 52 }
    ensures same { image_place (patched five_rows_image 52 (0x04 ∷ 0x22 ∷ [])) ≡ Some 52 }
    ensures five { image_place five_rows_image ≡ None }
{}

/// The children of nodes: past the number of nodes, also by one, those of a key of 11 codes, and a place of the first
/// that isn't as the earlier nodes say. Of 11 codes alone it is the rows' text that is faulty.
pub fn known_faults_of_children()
    ensures root { image_place (patched one_row_image 22 (3 ∷ [])) ≡ Some 22 }
    ensures past { image_place (patched one_row_image 38 (2 ∷ [])) ≡ Some 38 }
    ensures twelve { image_place (chain 12) ≡ Some 198 }
    ensures eleven { image_place (chain 11) ≡ Some 220 }
    ensures first_of_root { image_place (patched one_row_image 24 (2 ∷ [])) ≡ Some 24 }
    ensures first { image_place (patched one_row_image 40 (3 ∷ [])) ≡ Some 40 }
{}

/// The rows of nodes: of node 0, more than there are, of a node that has neither rows nor children, a place of the
/// first that isn't as the earlier nodes say, and fewer than there are.
pub fn known_faults_of_rows_of_nodes()
    ensures root { image_place (patched one_row_image 28 (1 ∷ [])) ≡ Some 28 }
    ensures past { image_place (patched one_row_image 60 (2 ∷ [])) ≡ Some 60 }
    ensures none { image_place (patched one_row_image 60 (0 ∷ [])) ≡ Some 60 }
    ensures twice { image_place (patched (patched five_rows_image 60 (3 ∷ [])) 80 (5 ∷ [])) ≡ Some 76 }
    ensures first_of_root { image_place (patched one_row_image 32 (1 ∷ [])) ≡ Some 32 }
    ensures first { image_place (patched one_row_image 48 (1 ∷ [])) ≡ Some 48 }
    ensures fewer { image_place (patched (patched (patched five_rows_image 44 (1 ∷ [])) 64 (1 ∷ [])) 80 (3 ∷ [])) ≡ Some 8 }
{}

/// The rows: a frequency of 100,000,000, a text that begins elsewhere, one that reaches past the end, has fewer
/// characters than the key has syllables, is no phrase, or is below or as that of the row before it for the same node;
/// and more text than the phrases have.
pub fn known_faults_of_rows()
    ensures greatest { image_place (patched one_row_image 68 (0xFF ∷ 0xE0 ∷ 0xF5 ∷ 0x05 ∷ [])) ≡ None }
    ensures too_frequent { image_place (patched one_row_image 68 (0x00 ∷ 0xE1 ∷ 0xF5 ∷ 0x05 ∷ [])) ≡ Some 68 }
    ensures text_start { image_place (patched one_row_image 72 (1 ∷ [])) ≡ Some 72 }
    ensures past { image_place (patched one_row_image 76 (7 ∷ [])) ≡ Some 76 }
    ensures fewer { image_place (patched one_row_image 76 (3 ∷ [])) ≡ Some 76 }
    ensures no_phrase { image_place (patched one_row_image 93 (0x41 ∷ [])) ≡ Some 76 }
    ensures below { image_place (patched five_rows_image 187 (0xE6 ∷ 0x98 ∷ 0xAE ∷ [])) ≡ Some 112 }
    ensures same { image_place (patched five_rows_image 187 (0xE6 ∷ 0x98 ∷ 0xAF ∷ [])) ≡ Some 112 }
    ensures more_text { image_place (patched one_row_image 16 (7 ∷ []) ++ 0x41 ∷ []) ≡ Some 16 }
{}
