ghost use Rattle.std.specs.Prelude.{◌≤◌, IfOk, IsTrue, length};
ghost use Rattle.chew_spec_syllable.specs.Row.{no_pair_twice};
ghost use Rattle.chew_spec_dictionary.specs.Dictionary.{is_map};

use chew_measuring::Failure;
use chew_outside::{StdSource, read_up_to};
use chew_plain::sort_rows;
use chew_rows::{SYSTEM_LIMIT, read_rows};
use chew_syllable::KeyRow;
use std::alloc::AllocGlobal;
use std::fs;
use std::fs::Files;

/// The rows of a dictionary, in the order of its lines.
fn read<R: Files + AllocGlobal>(rt: &R, name: &str) -> Result<Vec<KeyRow>, Failure>
    ensures apart { IfOk result (λ rows. IsTrue (no_pair_twice rows.items)) }
    ensures few { IfOk result (λ rows. length rows.items ≤ 250_000) }
{
    let mut source = StdSource::of(fs::open(rt, name)?);
    let Ok(text) = read_up_to(rt.alloc(), &mut source, SYSTEM_LIMIT) else {
        return Err(Failure::Form);
    };
    match read_rows(rt.alloc(), &text) {
        Ok(rows) => Ok(rows),
        Err(_) => Err(Failure::Form),
    }
}

/// The rows of a dictionary, in image order.
#[tactic(auto, using(chew_spec_dictionary::proofs::Once::map_of_rows))]
pub(crate) fn rows_of<R: Files + AllocGlobal>(rt: &R, name: &str) -> Result<Vec<KeyRow>, Failure>
    ensures map { IfOk result (λ rows. IsTrue (is_map rows.items)) }
    ensures few { IfOk result (λ rows. length rows.items ≤ 250_000) }
{
    let mut rows = read(rt, name)?;
    sort_rows(&mut rows)?;
    Ok(rows)
}
