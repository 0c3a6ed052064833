//! The plain map, and which snapshot waits.

ghost use Rattle.std.specs.Prelude.{◌≡◌, IsTrue, false};
ghost use Rattle.chew_spec_dictionary.specs.Call.{is_proper};
ghost use Rattle.chew_spec_dictionary.specs.History.{is_keepers};
ghost use Rattle.chew_plain.specs.Call.{call_of};

use chew_plain::{Call, Plain, Reply};
use chew_samples::five;
use chew_syllable::NoMemory;
use std::alloc::Global;
use std::marker::Model;

/// The plain map, and the number of the snapshot that waits.
#[derive(Drop)]
pub(crate) struct Plainly {
    plain: Plain,
    waiting: Option<u64>,
}

impl Model for Plainly {
    ghost use Rattle.std.specs.Prelude.{◌≡◌};
    ghost use Rattle.chew_spec_dictionary.specs.History.{Point};

    ghost Value = { Point };

    ghost view = { λ it. it.plain };

    ghost invariant = { λ it. it.plain.shape.waiting ≡ it.waiting };
}

impl Plainly {
    /// The empty map.
    pub(crate) fn empty(alloc: Global, life: u64, cap: u32) -> Result<Plainly, NoMemory> {
        let plain = Plain::of(Vec::new(alloc), life, cap)?;
        Ok(Plainly {
            plain,
            waiting: None,
        })
    }

    /// The map of the five rows of the samples, each with the time 0.
    pub(crate) fn five(alloc: Global, life: u64, cap: u32) -> Result<Plainly, NoMemory> {
        let plain = Plain::of(five(alloc)?, life, cap)?;
        Ok(Plainly {
            plain,
            waiting: None,
        })
    }

    #[tactic(auto, using(crate::proofs::Shapes::user_keeps_shape))]
    /// Makes a call of a user.
    pub(crate) fn make(&mut self, call: &Call) -> Result<Reply, NoMemory>
        requires proper { IsTrue (is_proper (call_of call.now)) }
        requires user { is_keepers (call_of call.now) ≡ false }
    {
        self.plain.apply(call)
    }

    /// Has a snapshot wait, and tells its number.
    pub(crate) fn freeze(&mut self) -> Result<u64, NoMemory> {
        match self.plain.apply(&Call::Freeze)? {
            Reply::Frozen(number) => {
                self.waiting = Some(number);
                Ok(number)
            }
            _ => unreachable!(),
        }
    }

    /// Has what waits installed. Whether something waited.
    pub(crate) fn install(&mut self) -> Result<bool, NoMemory> {
        let Some(number) = self.waiting else {
            return Ok(false);
        };
        let _reply = self.plain.apply(&Call::Install(number))?;
        self.waiting = None;
        Ok(true)
    }

    /// How many pairs it holds.
    pub(crate) fn pairs(&self) -> u32 {
        self.plain.pairs()
    }

    /// How many learns came before.
    pub(crate) fn life(&self) -> u64 {
        self.plain.life()
    }
}
