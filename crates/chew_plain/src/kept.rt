ghost use Rattle.std.specs.Prelude.{IsTrue};
ghost use Rattle.std.specs.List.{list_all};
ghost use Rattle.chew_spec_dictionary.specs.Call.{is_hit};
ghost use Rattle.chew_spec_syllable.specs.Row.{is_row};

use crate::hit::Hit;
use chew_syllable::KeyRow;

/// What every row keeps holds of each of these. It does nothing, and is there for proofs alone.
pub(crate) fn all_are_rows(rows: &[KeyRow])
    ensures { IsTrue (list_all is_row rows.now) }
{
    for row in rows {
        let _freq = row.freq;
    }
}

/// What every hit keeps holds of each of these. It does nothing, and is there for proofs alone.
pub(crate) fn all_are_hits(hits: &[Hit])
    ensures { IsTrue (list_all is_hit hits.now) }
{
    for hit in hits {
        let _freq = hit.freq;
    }
}
