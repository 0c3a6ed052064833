ghost use Rattle.std.specs.Prelude.{◌≡◌, suc, ◌<◌, ◌^◌, IsTrue, IfOk, OnOk, OnErr, length};
ghost use Rattle.chew_spec_syllable.specs.Row.{no_pair_twice, image_cmp};
ghost use Rattle.chew_spec_dictionary.specs.Call.{Freeze, Install, is_proper};
ghost use Rattle.chew_spec_dictionary.specs.Dictionary.{is_map};
ghost use Rattle.chew_spec_dictionary.specs.Order.{in_order};
ghost use Rattle.chew_spec_dictionary.specs.History.{answer, installs_waiting, start_of};
ghost use Rattle.chew_plain.specs.Call.{call_of, reply_of};

use crate::call::Call;
use crate::dictionary::Dictionary;
use crate::pairs::Pairs;
use crate::reply::Reply;
use chew_syllable::{KeyRow, NoMemory};
use std::marker::Model;

/// The user's dictionary by its plain meaning, as a point of a history: how many calls came before it, which snapshots
/// were installed and wait, and the pairs, the life and the cap now.
#[derive(Debug, Drop)]
pub struct Plain {
    dictionary: Dictionary,
    place: u64,
    installed: u64,
    waiting: Option<u64>,
}

impl Model for Plain {
    ghost use Rattle.chew_spec_dictionary.specs.History.{Point};

    ghost Value = { Point };

    ghost view = { λ p. record {
      place = p.place;
      shape = record { installed = p.installed; waiting = p.waiting };
      dictionary = p.dictionary;
    } };
}

impl Plain {
    /// The dictionary of these rows before any call. `life` is how many learns came before, and `cap` the number
    /// of pairs from which on no new one is added.
    pub fn of(rows: Vec<KeyRow>, life: u64, cap: u32) -> Result<Plain, NoMemory>
        requires pairs { IsTrue (no_pair_twice rows.items) }
        requires few { length rows.items < 2 ^ 32 }
        ensures value { IfOk result (λ plain. plain ≡ start_of (record { pairs = in_order image_cmp rows.items; life = life; cap = cap })) }
        ensures map { IfOk result (λ plain. IsTrue (is_map plain.dictionary.pairs)) }
    {
        let pairs = Pairs::of(rows)?;
        let dictionary = Dictionary { pairs, life, cap };
        Ok(Plain {
            dictionary,
            place: 0,
            installed: 0,
            waiting: None,
        })
    }

    /// Makes a call that is proper; an install names the snapshot that waits. `NoMemory` also comes where 2^64 - 1
    /// calls came before, since no journal of that many entries fits into memory.
    pub fn apply(&mut self, call: &Call) -> Result<Reply, NoMemory>
        requires proper { IsTrue (is_proper (call_of call.now)) }
        requires waits { IsTrue (installs_waiting self.now (call_of call.now)) }
        ensures ok { IfOk result (λ reply. reply_of reply ≡ (answer self.old (call_of call.now)).reply) }
        ensures moved { OnOk result (self.new ≡ (answer self.old (call_of call.now)).point) }
        ensures err { OnErr result (self.new ≡ self.old) }
    {
        if self.place == u64::MAX {
            return Err(NoMemory);
        }
        let reply = match call {
            Call::Look(run) => self.dictionary.look(run)?,
            Call::Learn {
                key,
                phrase,
                orig,
                peak,
            } => self.dictionary.learn(key, phrase, *orig, *peak)?,
            Call::Forget { key, phrase } => self.dictionary.forget(key, phrase),
            Call::Hide { key, phrase } => self.dictionary.hide(key, phrase)?,
            Call::Freeze => self.freeze(),
            Call::Install(number) => self.install(*number),
        };
        self.place += 1;
        Ok(reply)
    }

    /// How many learns came before.
    pub fn life(&self) -> u64
        ensures { result ≡ self.now.dictionary.life }
    {
        self.dictionary.life
    }

    /// How many pairs it holds.
    pub fn pairs(&self) -> u32
        ensures { result ≡ length self.now.dictionary.pairs }
    {
        self.dictionary.pairs.len()
    }

    /// Has a snapshot wait: the one that waits already, or that of the calls up to here.
    fn freeze(&mut self) -> Reply
        ensures reply { reply_of result ≡ (answer self.old Freeze).reply }
        ensures moved { record self.new { place = suc self.old.place } ≡ (answer self.old Freeze).point }
        ensures place { self.new.place ≡ self.old.place }
    {
        let number = match self.waiting {
            Some(number) => number,
            None => self.place,
        };
        self.waiting = Some(number);
        Reply::Frozen(number)
    }

    /// Has the snapshot of this number installed, and none wait.
    fn install(&mut self, number: u64) -> Reply
        ensures reply { reply_of result ≡ (answer self.old (Install number)).reply }
        ensures moved { record self.new { place = suc self.old.place } ≡ (answer self.old (Install number)).point }
        ensures place { self.new.place ≡ self.old.place }
    {
        self.installed = number;
        self.waiting = None;
        Reply::Installed
    }
}
