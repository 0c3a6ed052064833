//! Laws of images: there is one for each list of rows, and bytes without a fault are one.

ghost use Rattle.std.specs.Prelude.{◌≡◌, ◌+◌, ◌*◌, ◌≤◌, ℕ, List, length, IsTrue, Ok, None};
ghost use Rattle.std.specs.List.{list_all};
ghost use Rattle.chew_spec_syllable.specs.Row.{Row, is_row};
ghost use Rattle.chew_spec_dictionary.specs.Dictionary.{is_map};
ghost use Rattle.chew_spec_image.specs.Fields.{AreBytes};
ghost use Rattle.chew_spec_image.specs.Image.{can_hold, image, text_of};
ghost use Rattle.chew_spec_image.specs.NodeKeys.{node_keys};
ghost use Rattle.chew_spec_image.specs.Reading.{image_place, image_reading, rows_in};

/// The image of rows is read as these rows, and so has no faulty place. Two lists with the same image are one list.
pub fn images_are_read()
    ensures reading { (rows : List Row) → IsTrue (can_hold rows) → image_reading (image rows) ≡ Ok rows }
    ensures place { (rows : List Row) → IsTrue (can_hold rows) → image_place (image rows) ≡ None }
    ensures one_list { (rows others : List Row) → IsTrue (can_hold rows) → IsTrue (can_hold others) → image rows ≡ image others → rows ≡ others }
{}

/// Bytes that have no faulty place are the image of the rows that are read from them: rows in image order, no pair
/// twice, at most 250,000.
pub fn bytes_without_a_fault()
    ensures image { (bytes : List ℕ) → AreBytes bytes → image_place bytes ≡ None → image (rows_in bytes) ≡ bytes }
    ensures map { (bytes : List ℕ) → AreBytes bytes → image_place bytes ≡ None → IsTrue (is_map (rows_in bytes)) }
    ensures each { (bytes : List ℕ) → AreBytes bytes → image_place bytes ≡ None → IsTrue (list_all is_row (rows_in bytes)) }
    ensures few { (bytes : List ℕ) → AreBytes bytes → image_place bytes ≡ None → length (rows_in bytes) ≤ 250_000 }
{}

/// An image has 20 bytes, 16 for each node, 20 for each row and its text.
pub fn length_of_an_image()
    ensures { (rows : List Row) → length (image rows) ≡ 20 + 16 * length (node_keys rows) + 20 * length rows + length (text_of rows) }
{}
