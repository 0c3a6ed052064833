//! Whether rows can be written.

ghost use Rattle.std.specs.Prelude.{◌≡◌, IsTrue};
ghost use Rattle.std.specs.Ordering.{is_lt};
ghost use Rattle.chew_spec_syllable.specs.Row.{image_cmp, no_pair_twice};
ghost use Rattle.chew_spec_dictionary.specs.Dictionary.{is_map};

use chew_plain::image_order;
use chew_syllable::KeyRow;

/// Whether a row is below another in image order.
fn is_below(row: &KeyRow, other: &KeyRow) -> bool
    ensures { result ≡ is_lt (image_cmp row.now other.now) }
{
    image_order(row, other).is_lt()
}

/// Whether each row is below the next one in image order.
pub(crate) fn rises(rows: &[KeyRow]) -> bool
    ensures map { IsTrue result → IsTrue (is_map rows.now) }
    ensures apart { IsTrue result → IsTrue (no_pair_twice rows.now) }
{
    for i in 1..rows.len() {
        let row = &rows[i - 1];
        let next = &rows[i];
        if !is_below(row, next) {
            return false;
        }
    }
    true
}
