ghost use Rattle.std.specs.Prelude.{◌≡◌, ◌+◌, ◌≤◌, [], ◌∷◌, length, map, All, Contains, IfOk, IsTrue};
ghost use Rattle.chew_spec_dictionary.specs.History.{is_legal, start_of};
ghost use Rattle.chew_spec_layers.specs.Standing.{StandForMap};
ghost use Rattle.chew_spec_cell.specs.Pass.{fresh_pass, new_passes};
ghost use Rattle.chew_spec_cell.specs.Sight.{HasSeen, longer};
ghost use Rattle.chew_spec_shared.specs.SharedCalls.{IsOf};

use crate::legal::LegalLayers;
use crate::opened::{KeeperPass, Opened};
use chew_cell::{Cell, Pass};
use chew_layers::Layers;
use chew_syllable::NoMemory;
use chew_trie_read::Trie;
use std::alloc::Global;
use std::marker::Model;
use std::sync::Arc;

/// The user's dictionary, shared by contexts and a keeper. Each call is a turn of its own: the calls stand in one history, in the
/// order of their turns, and each is answered in its place there, after all calls before it.
#[derive(Drop)]
pub struct Shared {
    pub(crate) cell: Cell<LegalLayers>,
}

impl Model for Shared {
    ghost use Rattle.chew_spec_cell.specs.Pass as spec;

    ghost Value = { spec.Cell };

    ghost view = { λ s. s.cell };
}

impl Shared {
    /// Shares the dictionary of a base between a keeper and so many contexts, whose passes have seen nothing. `life` is how many
    /// learns came before, and `cap` the number of pairs from which on no new one is added.
    pub fn open(
        alloc: Global,
        base: Trie,
        life: u64,
        cap: u32,
        contexts: u32,
    ) -> Result<Opened, NoMemory>
        requires contexts { contexts ≤ 16 }
        requires few { length base ≤ 200_000 }
        requires cap { cap ≤ 200_000 }
        ensures start { IfOk result (λ opened. opened.shared.start ≡ record { pairs = base; life = life; cap = cap }) }
        ensures seats { IfOk result (λ opened. opened.shared.seats ≡ contexts + 1) }
        ensures keeper { IfOk result (λ opened. opened.keeper ≡ fresh_pass opened.shared 0) }
        ensures passes { IfOk result (λ opened. opened.keeper ∷ opened.passes.items ≡ new_passes opened.shared (contexts + 1)) }
    {
        let base = Arc::new(alloc, base)?;
        let layers = LegalLayers::of(Layers::of(alloc, base, life, cap));
        let (cell, mut passes) = Cell::new(alloc, layers, contexts + 1)?;
        let keeper = passes.remove(0);
        Ok(Opened {
            shared: Shared { cell },
            keeper,
            passes,
        })
    }

    /// Lets two holders see what either has seen: the longer of the two lists, which the other begins, and after which neither
    /// had made an entry. It takes no memory.
    pub fn meet(&self, first: Pass, second: Pass) -> (Pass, Pass)
        requires { IsOf self.now first × IsOf self.now second }
        ensures first { result.0 ≡ record first { seen = longer first.seen second.seen } }
        ensures second { result.1 ≡ record second { seen = longer first.seen second.seen } }
        ensures seen_by_first { HasSeen first.who first.seen result.0.seen }
        ensures seen_by_second { HasSeen second.who second.seen result.1.seen }
    {
        self.cell.meet(first, second)
    }

    /// The layers at the end, for all passes together. The journal is legal from the start, and the layers stand for the map after
    /// it. What each pass had seen begins it, no entry after that is of its number, and each entry is of the number of one of
    /// them. It takes no memory.
    pub fn close(self, keeper: KeeperPass, passes: Vec<Pass>) -> Layers
        requires ours { IsOf self keeper × All (λ p. IsOf self p) passes.items }
        requires keeper { keeper.who ≡ 0 }
        requires all { length passes.items + 1 ≡ self.seats }
        ensures start { result.start ≡ self.start }
        ensures legal { IsTrue (is_legal (start_of result.start) result.journal) }
        ensures stands { StandForMap result }
        ensures seen { All (λ p. HasSeen p.who p.seen result.journal) (keeper ∷ passes.items) }
        ensures known { All (λ e. Contains (map (λ p. p.who) (keeper ∷ passes.items)) e.who) result.journal }
    {
        self.cell.close(keeper, passes).into_layers()
    }
}
