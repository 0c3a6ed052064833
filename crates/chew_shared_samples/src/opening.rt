ghost use Rattle.std.specs.Prelude.{◌≡◌, ◌+◌, ◌≤◌, [], ◌∷◌, All, IfOk, None};
ghost use Rattle.chew_spec_cell.specs.Pass.{fresh_pass, new_passes};
ghost use Rattle.chew_spec_image.specs.Reading.{image_place, rows_in};
ghost use Rattle.chew_spec_shared.specs.SharedCalls.{IsOf};

use chew_shared::{Opened, Shared};
use chew_syllable::NoMemory;
use chew_trie_read::Trie;
use chew_trie_write::write_image;
use std::alloc::Global;

/// The empty map, shared between a keeper and so many contexts.
#[tactic(auto, using(crate::proofs::Passes::ours_behind))]
pub fn open_empty(alloc: Global, cap: u32, contexts: u32) -> Result<Opened, NoMemory>
    requires contexts { contexts ≤ 16 }
    requires cap { cap ≤ 200_000 }
    ensures start { IfOk result (λ opened. opened.shared.start ≡ record { pairs = []; life = 0; cap = cap }) }
    ensures seats { IfOk result (λ opened. opened.shared.seats ≡ contexts + 1) }
    ensures keeper { IfOk result (λ opened. opened.keeper ≡ fresh_pass opened.shared 0) }
    ensures passes { IfOk result (λ opened. opened.keeper ∷ opened.passes.items ≡ new_passes opened.shared (contexts + 1)) }
    ensures ours { IfOk result (λ opened. All (λ p. IsOf opened.shared p) opened.passes.items) }
{
    let base = Trie::of_image(write_image(alloc, &[])?);
    let opened = Shared::open(alloc, base, 0, cap, contexts)?;
    Ok(opened)
}
