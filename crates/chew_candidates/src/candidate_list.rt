ghost use Rattle.std.specs.Prelude.{◌≡◌, IfOk};

use chew_plain::{Hit, Hits};
use chew_syllable::NoMemory;
use std::alloc::Global;
use std::marker::Model;

/// The candidates of one length.
#[derive(Debug, Drop)]
pub struct CandList {
    /// How many cells each takes, 1 to 11.
    pub len: u8,
    /// The candidates, as they are shown.
    pub rows: Hits,
}

impl Model for CandList {
    ghost use Rattle.chew_spec_preedit.specs.Window as spec;

    ghost Value = { spec.CandidateList };

    ghost view = { λ list. record { len = list.len; rows = list.rows } };
}

impl CandList {
    /// The same list once more.
    fn copy(&self, alloc: Global) -> Result<CandList, NoMemory>
        ensures { IfOk result (λ list. list ≡ self.now) }
    {
        let rows = rows_copied(alloc, self.rows.list())?;
        Ok(CandList {
            len: self.len,
            rows: Hits::of(rows),
        })
    }
}

/// The same candidates once more.
fn rows_copied(alloc: Global, rows: &[Hit]) -> Result<Vec<Hit>, NoMemory>
    ensures { IfOk result (λ copied. copied.items ≡ rows.now) }
{
    let mut copied = Vec::with_capacity(alloc, rows.len())?;
    for hit in rows {
        copied.push(hit.copy())?;
    }
    Ok(copied)
}

/// The same lists once more.
pub(crate) fn lists_copied(alloc: Global, lists: &[CandList]) -> Result<Vec<CandList>, NoMemory>
    ensures { IfOk result (λ copied. copied.items ≡ lists.now) }
{
    let mut copied = Vec::with_capacity(alloc, lists.len())?;
    for list in lists {
        copied.push(list.copy(alloc)?)?;
    }
    Ok(copied)
}
