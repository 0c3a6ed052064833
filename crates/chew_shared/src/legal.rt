ghost use Rattle.std.specs.Prelude.{◌≡◌, ◌≢◌, ◌≤◌, ◌++◌, ℕ, List, [], ◌∷◌, IsTrue, IfOk, OnOk, OnErr, Some, length};
ghost use Rattle.std.specs.Arc.{arc_value};
ghost use Rattle.chew_spec_dictionary.specs.Call.{Freeze, Frozen, Install};
ghost use Rattle.chew_spec_dictionary.specs.History as history;
ghost use Rattle.chew_spec_dictionary.specs.History.{after, answer, is_user_call, start_of};
ghost use Rattle.chew_spec_layers.specs.Overlay.{overlay};
ghost use Rattle.chew_spec_layers.specs.Standing.{StandForMap};
ghost use Rattle.chew_spec_cell.specs.Sight.{HasSeen};
ghost use Rattle.chew_spec_shared.specs.Needs.{IsNeed};
ghost use Rattle.chew_spec_shared.specs.Snapshot.{IsMerge, IsSnapshot, waiting_after};
ghost use Rattle.chew_plain.specs.Call.{call_of, reply_of};
ghost use Rattle.chew_layers.specs.Need.{meaning_of};
ghost use Rattle.chew_shared.specs.Legal.{AreLegal};

use chew_cell::Chronicle;
use chew_layers::{KEEPER, Layers, Need, Snapshot};
use chew_plain::{Call, Entry, Reply};
use chew_syllable::NoMemory;
use chew_trie_read::Trie;
use std::marker::Model;
use std::sync::Arc;

/// Layers whose journal is legal: the keeper made the freezes and installs, and nothing else.
#[derive(Drop)]
pub(crate) struct LegalLayers {
    layers: Layers,
}

impl Model for LegalLayers {
    ghost use Rattle.chew_spec_layers.specs.Layers as spec;

    ghost Value = { spec.Layers };

    ghost use Rattle.chew_shared.specs.Legal.{AreLegal};

    ghost view = { λ l. l.layers };

    ghost invariant = { λ l. AreLegal l.layers };
}

impl Chronicle for LegalLayers {
    ghost entries = { λ l. l.journal };

    ghost start = { λ l. l.start };

    fn entries(&self) -> &[Entry] {
        self.layers.journal()
    }
}

impl LegalLayers {
    /// Layers of which no call was made yet.
    pub(crate) fn of(layers: Layers) -> LegalLayers
        requires stand { StandForMap layers }
        requires empty { layers.journal ≡ [] }
        ensures { result ≡ layers }
    {
        LegalLayers { layers }
    }

    /// Makes a call of a user, whose number isn't the keeper's.
    pub(crate) fn apply(&mut self, who: u32, call: &Call) -> Result<Reply, NoMemory>
        requires other { who ≢ 0 }
        requires call { IsTrue (is_user_call (call_of call.now)) }
        ensures ok { IfOk result (λ reply. reply_of reply ≡ (answer (after (start_of self.old.start) self.old.journal) (call_of call.now)).reply) }
        ensures journal { OnOk result (self.new.journal ≡ self.old.journal ++ record { who = who; call = call_of call.now } ∷ []) }
        ensures start { self.new.start ≡ self.old.start }
        ensures err { OnErr result (self.new ≡ self.old) }
    {
        self.layers.apply(who, call)
    }

    /// Freezes, for the keeper.
    pub(crate) fn freeze(&mut self) -> Result<Snapshot, NoMemory>
        ensures reply { IfOk result (λ snapshot. Frozen snapshot.upto ≡ (answer (after (start_of self.old.start) self.old.journal) Freeze).reply) }
        ensures journal { OnOk result (self.new.journal ≡ self.old.journal ++ record { who = 0; call = Freeze } ∷ []) }
        ensures snapshot { IfOk result (λ snapshot. IsSnapshot self.new.start self.new.journal (arc_value snapshot.base)
            (record { marks = arc_value snapshot.frozen; number = snapshot.upto; life = snapshot.life })) }
        ensures few { IfOk result (λ snapshot. length (overlay (arc_value snapshot.base) (arc_value snapshot.frozen)) ≤ 200_000) }
        ensures start { self.new.start ≡ self.old.start }
        ensures err { OnErr result (self.new ≡ self.old) }
    {
        self.layers.freeze(KEEPER)
    }

    /// Installs the merge of the snapshot that waited when the keeper had seen so much of the journal: it waits still.
    pub(crate) fn install(&mut self, map: Arc<Trie>)
        requires { (seen : List history.Entry) × (number : ℕ) × HasSeen 0 seen self.old.journal × IsMerge self.old.start seen number (arc_value map) }
        ensures journal { (seen : List history.Entry) (number : ℕ) → HasSeen 0 seen self.old.journal → waiting_after self.old.start seen ≡ Some number
            → self.new.journal ≡ self.old.journal ++ record { who = 0; call = Install number } ∷ [] }
        ensures start { self.new.start ≡ self.old.start }
    {
        self.layers.install(KEEPER, map)
    }

    /// What is needed, so that the base has all.
    pub(crate) fn need(&self) -> Need
        ensures { IsNeed self.now.start self.now.journal (meaning_of result) }
    {
        self.layers.need()
    }

    /// What all of these keep. It does nothing, and is there for proofs alone.
    pub(crate) fn keeps(&self)
        ensures { AreLegal self.now }
    {
        self.layers.keeps();
    }

    /// The layers, to be kept.
    pub(crate) fn into_layers(self) -> Layers
        ensures same { result ≡ self }
        ensures legal { AreLegal self }
    {
        self.layers
    }
}
