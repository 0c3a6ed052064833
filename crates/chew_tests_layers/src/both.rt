//! The user's dictionary twice, as a plain map and in layers, which get the same calls. A call that is refused memory is made
//! once more, and a refusal of the layers must leave them as they were.

ghost use Rattle.std.specs.Prelude.{◌≡◌, ◌≤◌, IsTrue, false};
ghost use Rattle.chew_spec_dictionary.specs.Call.{is_proper};
ghost use Rattle.chew_spec_dictionary.specs.History.{is_keepers};
ghost use Rattle.chew_plain.specs.Call.{call_of};

use crate::plainly::Plainly;
use crate::replies::are_same;
use crate::rule::ten_syllables;
use chew_layer_samples::{InLayers, look};
use chew_layers::Need;
use chew_plain::{Call, Reply};
use chew_syllable::{NoMemory, Syllable};
use std::alloc::Global;
use std::test::Fail;

/// The same dictionary twice.
#[derive(Drop)]
pub(crate) struct Both {
    pub(crate) plain: Plainly,
    pub(crate) layers: InLayers,
}

/// What a refused call must not change: what the layers need, and how many calls there were.
#[derive(Clone, Copy)]
struct Before {
    need: Need,
    calls: usize,
}

impl Both {
    /// The map of no rows twice.
    pub(crate) fn empty(alloc: Global, life: u64, cap: u32) -> Result<Both, NoMemory>
        requires { cap ≤ 200_000 }
    {
        Ok(Both {
            plain: Plainly::empty(alloc, life, cap)?,
            layers: InLayers::empty(alloc, life, cap)?,
        })
    }

    /// The map of five rows twice.
    pub(crate) fn five(alloc: Global, life: u64, cap: u32) -> Result<Both, NoMemory>
        requires { cap ≤ 200_000 }
    {
        Ok(Both {
            plain: Plainly::five(alloc, life, cap)?,
            layers: InLayers::five(alloc, life, cap)?,
        })
    }

    /// Looks up a run. Whether both find the same.
    pub(crate) fn find(&mut self, run: &[Syllable]) -> Result<bool, Fail> {
        let Some(call) = look(run) else {
            return Err(Fail::new("no run"));
        };
        let layered = self.layers.make(&call)?;
        let plainly = self.plain.make(&call)?;
        Ok(are_same(&layered, &plainly))
    }

    /// How the layers are before a call.
    fn before(&self) -> Before {
        Before {
            need: self.layers.need(),
            calls: self.layers.calls(),
        }
    }

    /// Fails unless the layers, which refused a call, are as before it, and find the same.
    fn check_unchanged(&mut self, before: Before) -> Result<(), Fail> {
        if self.layers.need() != before.need || self.layers.calls() != before.calls {
            return Err(Fail::new("a refused call is kept"));
        }
        let run = ten_syllables();
        if self.find(&run[..4])? {
            Ok(())
        } else {
            Err(Fail::new("a refused call changed the map"))
        }
    }

    /// The layers' reply to a call of a user.
    fn layered(&mut self, call: &Call) -> Result<Reply, Fail>
        requires proper { IsTrue (is_proper (call_of call.now)) }
        requires user { is_keepers (call_of call.now) ≡ false }
    {
        let before = self.before();
        match self.layers.make(call) {
            Ok(reply) => Ok(reply),
            Err(_) => {
                self.check_unchanged(before)?;
                Ok(self.layers.make(call)?)
            }
        }
    }

    /// Makes a call of a user. Whether both reply alike.
    pub(crate) fn make(&mut self, call: &Call) -> Result<bool, Fail>
        requires proper { IsTrue (is_proper (call_of call.now)) }
        requires user { is_keepers (call_of call.now) ≡ false }
    {
        let layered = self.layered(call)?;
        match self.plain.make(call) {
            Ok(plainly) => Ok(are_same(&layered, &plainly)),
            Err(_) => Ok(are_same(&layered, &self.plain.make(call)?)),
        }
    }

    /// Has a snapshot wait. Whether both give it the same number.
    pub(crate) fn freeze(&mut self) -> Result<bool, Fail> {
        let before = self.before();
        let number = match self.layers.freeze() {
            Ok(number) => number,
            Err(_) => {
                self.check_unchanged(before)?;
                self.layers.freeze()?
            }
        };
        Ok(number == self.plain.freeze()?)
    }

    /// Has what waits installed. Whether something waited in both, or in neither.
    pub(crate) fn install(&mut self) -> Result<bool, Fail> {
        let before = self.before();
        let waited = match self.layers.install() {
            Ok(waited) => waited,
            Err(_) => {
                self.check_unchanged(before)?;
                self.layers.install()?
            }
        };
        Ok(waited == self.plain.install()?)
    }
}
