ghost use Rattle.std.specs.Prelude.{◌≡◌, IfOk, IsTrue, OnOk, [], length, map, true};
ghost use Rattle.std.specs.List.{AllZip, list_all};
ghost use Rattle.chew_spec_outside.specs.Faults.{risen};
ghost use Rattle.chew_spec_dictionary.specs.History.{answer, is_user_call, start_of};
ghost use Rattle.chew_plain.specs.Call.{call_of, entry_of, reply_of};
ghost use Rattle.chew_replay.specs.Reply.{IsFoundBy};

use crate::fault::ReplayFault;
use chew_plain::{Call, Entry, Hit, Plain, Reply, RowRef};
use chew_script::append_entry;
use chew_syllable::{Key, NoMemory, Phrase, Run};
use chew_trie_read::Trie;
use chew_user_calls::is_of_user;
use std::alloc::Global;
use std::marker::Model;

/// The plain dictionary after a front of a journal: how long the front is, and what the dictionary holds then.
#[derive(Drop)]
pub struct Retold {
    plain: Plain,
    place: usize,
}

impl Model for Retold {
    ghost use Rattle.std.specs.Prelude.{IsTrue};
    ghost use Rattle.std.specs.List.{list_all};
    ghost use Rattle.chew_spec_syllable.specs.Row.{is_row};
    ghost use Rattle.chew_replay.specs.Progress.{Progress};

    ghost Value = { Progress };

    ghost view = { λ it. record { point = it.plain; place = it.place } };

    ghost invariant = { λ it. IsTrue (list_all is_row it.plain.dictionary.pairs) };
}

/// Whether an entry's call is this one: both have the same line in a trace.
fn is_told(alloc: Global, entry: &Entry, call: &Call) -> Result<bool, NoMemory> {
    let mut told = Vec::new(alloc);
    append_entry(&mut told, entry)?;
    let mut asked = Vec::new(alloc);
    let own = Entry {
        who: entry.who,
        call: call.copy(),
    };
    append_entry(&mut asked, &own)?;
    Ok(told.as_slice() == asked.as_slice())
}

/// Whether a hit tells of this row of a key of so many syllables.
fn is_hit_of(hit: &Hit, len: usize, row: &RowRef<'_>) -> bool {
    let is_hidden = len > 1 && row.time == u64::MAX;
    (hit.len as usize, hit.freq, hit.hidden) == (len, row.freq, is_hidden)
        && hit.phrase.text() == row.phrase
}

impl Retold {
    /// Before the first call, of a dictionary without a pair that takes at most `cap` of them.
    pub fn new(alloc: Global, cap: u32) -> Result<Retold, ReplayFault>
        ensures { IfOk result (λ retold. retold ≡ record { point = start_of (record { pairs = []; life = 0; cap = cap }); place = 0 }) }
    {
        let plain = Plain::of(Vec::new(alloc), 0, cap)?;
        Ok(Retold { plain, place: 0 })
    }

    /// How many entries of the journal came before.
    pub fn place(&self) -> usize
        ensures { result ≡ self.now.place }
    {
        self.place
    }

    /// Makes a call of a user.
    #[tactic(auto, using(crate::proofs::Found::found_by, crate::proofs::Found::rows_stay))]
    fn make(&mut self, call: &Call) -> Result<Reply, ReplayFault>
        requires { IsTrue (is_user_call (call_of call.now)) }
        ensures found { IfOk result (λ reply. IsFoundBy (call_of call.now) (reply_of reply)) }
        ensures moved { OnOk result (self.new.point ≡ (answer self.old.point (call_of call.now)).point) }
        ensures place { self.new.place ≡ self.old.place }
    {
        match self.plain.apply(call) {
            Ok(reply) => Ok(reply),
            Err(NoMemory) => Err(ReplayFault::NoMemory),
        }
    }

    /// Makes a call that stands in the journal.
    fn change(&mut self, call: &Call) -> Result<(), ReplayFault>
        ensures moved { OnOk result (self.new.point ≡ (answer self.old.point (call_of call.now)).point) }
        ensures place { self.new.place ≡ self.old.place }
    {
        if !is_of_user(call) {
            return Err(ReplayFault::Differs);
        }
        let _reply = self.make(call)?;
        Ok(())
    }

    /// Reads one entry more: makes its call where it may change the map, which look-ups, freezes and installs don't.
    pub fn make_told(&mut self, entry: &Entry) -> Result<(), ReplayFault>
        ensures map { OnOk result (self.new.point.dictionary ≡ (answer self.old.point (entry_of entry.now).call).point.dictionary) }
        ensures place { self.new.place ≡ risen self.old.place }
    {
        self.place = self.place.saturating_add(1);
        match &entry.call {
            Call::Look(_) | Call::Freeze | Call::Install(_) => Ok(()),
            Call::Learn { .. } | Call::Forget { .. } | Call::Hide { .. } => {
                self.change(&entry.call)
            }
        }
    }

    /// Makes the calls that stand before the next one of this number.
    fn go_to(&mut self, journal: &[Entry], who: u32) -> Result<(), ReplayFault> {
        let from = self.place.min(journal.len());
        for entry in &journal[from..] {
            if entry.who == who {
                return Ok(());
            }
            self.make_told(entry)?;
        }
        Err(ReplayFault::Differs)
    }

    /// Makes the calls that stand before the next one of this number, and then that, which is the one that is asked for.
    fn make_next(
        &mut self,
        alloc: Global,
        journal: &[Entry],
        who: u32,
        call: &Call,
    ) -> Result<Reply, ReplayFault>
        requires { IsTrue (is_user_call (call_of call.now)) }
        ensures { IfOk result (λ reply. IsFoundBy (call_of call.now) (reply_of reply)) }
    {
        self.go_to(journal, who)?;
        match journal.get(self.place) {
            None => return Err(ReplayFault::Differs),
            Some(entry) => {
                if !is_told(alloc, entry, call)? {
                    return Err(ReplayFault::Differs);
                }
            }
        }
        self.place = self.place.saturating_add(1);
        self.make(call)
    }

    /// Makes these calls, each where it stands in the journal.
    pub(crate) fn make_all(
        &mut self,
        alloc: Global,
        journal: &[Entry],
        who: u32,
        calls: &[Call],
    ) -> Result<Vec<Reply>, ReplayFault>
        requires { IsTrue (list_all is_user_call (map call_of calls.now)) }
        ensures { IfOk result (λ replies. AllZip (λ call reply. IsFoundBy (call_of call) (reply_of reply)) calls.now replies.items) }
    {
        match calls {
            [] => Ok(Vec::new(alloc)),
            [call, rest @ ..] => {
                let reply = self.make_next(alloc, journal, who, call)?;
                let mut replies = self.make_all(alloc, journal, who, rest)?;
                match replies.insert(0, reply) {
                    Ok(()) => Ok(replies),
                    Err(_) => Err(ReplayFault::NoMemory),
                }
            }
        }
    }

    /// Whether no call of this number is left.
    pub(crate) fn has_told_all(&self, journal: &[Entry], who: u32) -> bool {
        let from = self.place.min(journal.len());
        for entry in &journal[from..] {
            if entry.who == who {
                return false;
            }
        }
        true
    }

    /// Whether a look-up finds this row.
    fn has_row(&mut self, key: &Key, row: &RowRef<'_>) -> Result<bool, ReplayFault> {
        let Some(run) = Run::of(key.list()) else {
            return Ok(false);
        };
        let look = Call::Look(run);
        if !is_of_user(&look) {
            return Ok(false);
        }
        match self.make(&look)? {
            Reply::Rows(hits) => {
                let len = key.len();
                Ok(hits.list().iter().any(|hit| is_hit_of(hit, len, row)))
            }
            _ => Ok(false),
        }
    }

    /// Whether the dictionary now holds this map with this life, whatever the times of its rows.
    pub fn holds(&mut self, map: &Trie, life: u64) -> Result<bool, ReplayFault>
        ensures life { IfOk result (λ held. held ≡ true → self.old.point.dictionary.life ≡ life) }
        ensures pairs { IfOk result (λ held. held ≡ true → length self.old.point.dictionary.pairs ≡ length map.now) }
    {
        if self.plain.life() != life {
            return Ok(false);
        }
        if self.plain.pairs() != map.total() {
            return Ok(false);
        }
        for (key, row) in map.each() {
            if !self.has_row(&key, &row)? {
                return Ok(false);
            }
        }
        Ok(true)
    }
}
