ghost use Rattle.std.specs.Prelude.{◌≡◌, ◌<◌, ◌⊎◌, IfOk, Contains};
ghost use Rattle.chew_phrasing.specs.Table as table;
ghost use Rattle.chew_phrasing.specs.Merge.{Beats, IsMerged};

use crate::entry::Entry;
use chew_syllable::NoMemory;
use std::alloc::Global;
use std::cmp::Ordering;

/// The entries of both lists, of which each is in the order of its counts, as one such list. Where both have an entry of
/// the same lengths, the one stands there whose frequencies count more, and else the own one, which is longer at the
/// first.
pub(crate) fn merge(alloc: Global, own: &[Entry], other: &[Entry]) -> Result<Vec<Entry>, NoMemory>
    requires longer { (mine yours : table.Entry) → Contains own.now mine → Contains other.now yours → yours.len < mine.len }
    ensures { IfOk result (λ all. IsMerged own.now other.now all.items) }
{
    let mut all = Vec::with_capacity(alloc, own.len() + other.len())?;
    let mut from_own = 0;
    let mut from_other = 0;
    'both: while from_own < own.len() && from_other < other.len() {
        let mine = own[from_own];
        let yours = other[from_other];
        match mine.counts.order(&yours.counts) {
            Ordering::Less => {
                all.push(mine)?;
                from_own += 1;
            }
            Ordering::Greater => {
                all.push(yours)?;
                from_other += 1;
            }
            Ordering::Equal => {
                all.push(greater(mine, yours))?;
                from_own += 1;
                from_other += 1;
            }
        }
    }
    all.extend_from_slice(&own[from_own..])?;
    all.extend_from_slice(&other[from_other..])?;
    Ok(all)
}

/// Of two orders of the same lengths the one whose frequencies count more, and else the first.
fn greater(mine: Entry, yours: Entry) -> Entry
    requires counts { mine.counts ≡ yours.counts }
    requires longer { yours.len < mine.len }
    ensures { ((result ≡ mine) × Beats mine yours) ⊎ ((result ≡ yours) × Beats yours mine) }
{
    if mine.freq < yours.freq { yours } else { mine }
}
