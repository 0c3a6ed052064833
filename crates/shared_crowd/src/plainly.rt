//! The plain map, and which snapshot waits.

ghost use Rattle.std.specs.Prelude.{◌≡◌, ◌↔◌, IsTrue, true};
ghost use Rattle.chew_spec_dictionary.specs.History.{is_user_call};
ghost use Rattle.chew_plain.specs.Call.{call_of};

use chew_plain::{Call, Plain, Reply};
use chew_syllable::NoMemory;
use chew_user_calls::is_of_user;
use std::alloc::Global;
use std::marker::Model;

/// The plain map, and the number of the snapshot that waits.
#[derive(Drop)]
pub(crate) struct Plainly {
    plain: Plain,
    waiting: Option<u64>,
}

impl Model for Plainly {
    ghost use Rattle.std.specs.Prelude.{◌≡◌};
    ghost use Rattle.chew_spec_dictionary.specs.History.{Point};

    ghost Value = { Point };

    ghost view = { λ it. it.plain };

    ghost invariant = { λ it. it.plain.shape.waiting ≡ it.waiting };
}

impl Plainly {
    /// The empty map.
    pub(crate) fn empty(alloc: Global, cap: u32) -> Result<Plainly, NoMemory> {
        let plain = Plain::of(Vec::new(alloc), 0, cap)?;
        Ok(Plainly {
            plain,
            waiting: None,
        })
    }

    /// Makes a call of a user.
    #[tactic(auto, using(crate::proofs::Shapes::user_keeps_shape))]
    fn make_for_user(&mut self, call: &Call) -> Result<Reply, NoMemory>
        requires { IsTrue (is_user_call (call_of call.now)) }
    {
        self.plain.apply(call)
    }

    /// Has a snapshot wait.
    fn freeze(&mut self) -> Result<Reply, NoMemory> {
        match self.plain.apply(&Call::Freeze)? {
            Reply::Frozen(number) => {
                self.waiting = Some(number);
                Ok(Reply::Frozen(number))
            }
            _ => unreachable!(),
        }
    }

    /// Has the snapshot of this number installed, if it waits.
    fn install(&mut self, number: u64) -> Result<Option<Reply>, NoMemory> {
        if self.waiting != Some(number) {
            return Ok(None);
        }
        let reply = self.plain.apply(&Call::Install(number))?;
        self.waiting = None;
        Ok(Some(reply))
    }

    /// Makes a call, if it may be made here.
    pub(crate) fn make(&mut self, call: &Call) -> Result<Option<Reply>, NoMemory> {
        match call {
            Call::Freeze => Ok(Some(self.freeze()?)),
            Call::Install(number) => self.install(*number),
            _ => {
                if is_of_user(call) {
                    Ok(Some(self.make_for_user(call)?))
                } else {
                    Ok(None)
                }
            }
        }
    }

    /// How many pairs it holds.
    pub(crate) fn pairs(&self) -> u32 {
        self.plain.pairs()
    }

    /// How many learns came before.
    pub(crate) fn life(&self) -> u64 {
        self.plain.life()
    }
}
