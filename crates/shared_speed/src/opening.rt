ghost use Rattle.std.specs.Prelude.{◌≤◌, IfOk, length};

use chew_measuring::Failure;
use chew_syllable::USER_ROWS_LIMIT;
use chew_trie_read::Trie;
use chew_trie_write::write_image;
use std::alloc::AllocGlobal;
use std::fs;
use std::fs::Files;

/// The dictionary that is there before the calls.
#[derive(Drop)]
pub(crate) enum Base<'a> {
    /// It has no row.
    Nothing,
    /// It is the image of this file.
    Image(&'a str),
}

/// The base, of as many rows as a user's may have.
pub(crate) fn map_of<R: Files + AllocGlobal>(rt: &R, base: &Base<'_>) -> Result<Trie, Failure>
    ensures { IfOk result (λ map. length map ≤ 200_000) }
{
    let image = match base {
        Base::Nothing => write_image(rt.alloc(), &[])?,
        Base::Image(name) => fs::read(rt, name)?,
    };
    let Ok(map) = Trie::of(image) else {
        return Err(Failure::Form);
    };
    if map.total() > USER_ROWS_LIMIT {
        return Err(Failure::Form);
    }
    Ok(map)
}
