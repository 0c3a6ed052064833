ghost use Rattle.std.specs.Prelude.{◌≡◌, ◌≤◌, IsSome, IfOk, OnOk, OnErr, None, Some, length, option_map};
ghost use Rattle.std.specs.Arc.{arc_value};
ghost use Rattle.std.specs.Option.{option_map_or};
ghost use Rattle.chew_spec_dictionary.specs.Call.{Freeze as FreezeCall};
ghost use Rattle.chew_spec_layers.specs.Layers.{Waiting, frozen_by, frozen_marks, installed_by, map_in, newly_frozen};
ghost use Rattle.chew_spec_layers.specs.Overlay.{overlay};
ghost use Rattle.chew_spec_layers.specs.Standing.{StandForMap};
ghost use Rattle.chew_plain.specs.Call.{entry_of};

use crate::change::room_for;
use crate::layer::Layer;
use crate::layers::{FrozenAt, Layers};
use crate::snapshot::Snapshot;
use chew_buffer::Buffer;
use chew_plain::{Call, Entry};
use chew_syllable::NoMemory;
use chew_trie_read::Trie;
use std::mem::replace;
use std::sync::Arc;

/// The keeper's number, under which freezes and installs are entered; contexts have numbers from 1 on.
pub const KEEPER: u32 = 0;

impl Layers {
    /// Has the fresh marks wait for a new base, or, where a layer waits already, has it go on waiting; and gives what the new base
    /// is made of. Later calls leave room for the entry of its install. It copies no marks, and costs the same for any number.
    pub fn freeze(&mut self, who: u32) -> Result<Snapshot, NoMemory>
        ensures ok { OnOk result (self.new ≡ frozen_by self.old who) }
        ensures base { IfOk result (λ snapshot. arc_value snapshot.base ≡ self.new.base) }
        ensures frozen { IfOk result
            (λ snapshot. self.new.frozen ≡ Some (record { marks = arc_value snapshot.frozen; number = snapshot.upto; life = snapshot.life })) }
        ensures stands { StandForMap self.new }
        ensures few { length (map_in self.new) ≤ 200_000 }
        ensures below { length (overlay self.new.base (frozen_marks self.new.frozen)) ≤ 200_000 }
        ensures err { OnErr result (self.new ≡ self.old) }
    {
        self.keeps();
        let base = self.share_base()?;
        let entry = Entry {
            who,
            call: Call::Freeze,
        };
        match self.frozen_at() {
            Some(at) => {
                let frozen = self.share_frozen()?;
                self.note(entry)?;
                self.keeps();
                Ok(Snapshot {
                    base,
                    frozen,
                    upto: at.number,
                    life: at.life,
                })
            }
            None => {
                let frozen = self.share_fresh()?;
                let at = self.freeze_fresh(entry)?;
                self.keeps();
                Ok(Snapshot {
                    base,
                    frozen,
                    upto: at.number,
                    life: at.life,
                })
            }
        }
    }

    /// When what waits was frozen.
    fn frozen_at(&self) -> Option<FrozenAt>
        ensures { option_map (λ at. record { marks = frozen_marks self.now.frozen; number = at.number; life = at.life }) result ≡ self.now.frozen }
    {
        self.waits
    }

    /// The base, shared.
    fn share_base(&self) -> Result<Arc<Trie>, NoMemory>
        ensures { IfOk result (λ base. arc_value base ≡ self.now.base) }
    {
        Ok(Arc::try_clone(&self.base)?)
    }

    /// The marks that wait, shared.
    fn share_frozen(&mut self) -> Result<Arc<Buffer>, NoMemory>
        requires waits { IsSome self.old.frozen }
        ensures ok { IfOk result (λ marks. arc_value marks ≡ frozen_marks self.old.frozen) }
        ensures same { self.new ≡ self.old }
    {
        self.frozen.share()
    }

    /// The fresh marks, shared.
    fn share_fresh(&mut self) -> Result<Arc<Buffer>, NoMemory>
        ensures ok { IfOk result (λ marks. arc_value marks ≡ self.old.fresh) }
        ensures same { self.new ≡ self.old }
    {
        self.fresh.share()
    }

    /// Has the fresh marks wait, and tells since when.
    fn freeze_fresh(&mut self, entry: Entry) -> Result<FrozenAt, NoMemory>
        requires none { self.old.frozen ≡ None }
        requires call { (entry_of entry).call ≡ FreezeCall }
        ensures ok { OnOk result (self.new ≡ newly_frozen self.old entry.who) }
        ensures at { IfOk result (λ at. self.new.frozen ≡ Some (record { marks = self.old.fresh; number = at.number; life = at.life })) }
        ensures err { OnErr result (self.new ≡ self.old) }
    {
        self.journal.reserve(2)?;
        let at = FrozenAt {
            number: self.journal.len() as u64,
            life: self.life,
        };
        self.frozen = replace(&mut self.fresh, Layer::new(self.alloc));
        self.waits = Some(at);
        self.journal.push_reserved(entry);
        Ok(at)
    }

    /// Has a base that has what waits take the place of the base and of what waits. It takes no memory.
    pub fn install(&mut self, who: u32, map: Arc<Trie>)
        requires waits { IsSome self.old.frozen }
        requires map { arc_value map ≡ overlay self.old.base (frozen_marks self.old.frozen) }
        ensures left { (waiting : Waiting) → self.old.frozen ≡ Some waiting → self.new ≡ installed_by self.old who waiting (arc_value map) }
        ensures stands { StandForMap self.new }
        ensures few { length (map_in self.new) ≤ 200_000 }
        ensures below { length (overlay self.new.base (frozen_marks self.new.frozen)) ≤ 200_000 }
    {
        let number = self.waiting_number();
        let base = replace(&mut self.base, map);
        self.first = Some(first_of(self.first.take(), base));
        self.waits = None;
        self.frozen = Layer::new(self.alloc);
        self.installed = number;
        self.journal.push_reserved(Entry {
            who,
            call: Call::Install(number),
        });
        self.keeps();
    }

    /// The number of what waits.
    fn waiting_number(&self) -> u64
        requires waits { IsSome self.now.frozen }
        ensures { (waiting : Waiting) → self.now.frozen ≡ Some waiting → result ≡ waiting.number }
    {
        match self.waits {
            Some(at) => at.number,
            None => unreachable!(),
        }
    }
}

/// The first base: the one that is kept, or this one, where no other was installed before.
fn first_of(first: Option<Arc<Trie>>, base: Arc<Trie>) -> Arc<Trie>
    ensures { arc_value result ≡ option_map_or (λ kept. arc_value kept) first (arc_value base) }
{
    match first {
        Some(first) => first,
        None => base,
    }
}
