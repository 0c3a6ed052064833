ghost use Rattle.std.specs.Prelude.{◌≡◌};
ghost use Rattle.chew_spec_phrasing.specs.CombinedRows.{is_hit_at};

use chew_plain::{Hit, Interval};

/// Whether the row is one of the interval.
pub(crate) fn is_hit_at(hit: &Hit, at: Interval) -> bool
    ensures { result ≡ is_hit_at at hit.now }
{
    usize::from(hit.start) == at.start && usize::from(hit.len) == at.len
}
