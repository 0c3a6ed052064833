ghost use Rattle.std.specs.Prelude.{◌≡◌, ◌≤◌, ◌-◌, [], List, length, Ok, Some, All, OnOk};
ghost use Rattle.chew_spec_text.specs.KeyStroke.{keys_in, KeyStroke as Key};
ghost use Rattle.chew_spec_text.specs.Script as spec;
ghost use Rattle.chew_spec_text.specs.Script.{add_keys, script_line, with_script_line};
ghost use Rattle.chew_script.specs.Faults.{Gives};
ghost use Rattle.chew_script.specs.Keys.{lists_of};
ghost use Rattle.chew_script.specs.Lines.{added};

use crate::contexts::Contexts;
use crate::fault::{LineFault, ScriptCause};
use crate::keys::push_keys;
use crate::keystroke::KeyStroke;
use crate::limits::{KEYS_LIMIT, ROUNDS_LIMIT};
use crate::script::Script;
use crate::script_line::{ScriptLine, script_line};
use chew_syllable::NoMemory;
use std::alloc::Global;
use std::marker::Model;

/// A script as far as it was read.
#[derive(Drop)]
pub(crate) struct PartialScript {
    contexts: Vec<Vec<KeyStroke>>,
    /// How many keys all contexts have.
    count: usize,
    rounds: u32,
}

impl Model for PartialScript {
    ghost use Rattle.chew_spec_text.specs.Script as spec;
    ghost use Rattle.chew_script.specs.Keys.{lists_of};
    ghost use Rattle.chew_script.specs.Sound.{IsSound};

    ghost Value = { spec.Script };

    ghost view = { λ script. record { contexts = lists_of script.contexts.items; rounds = script.rounds } };

    ghost invariant = { λ script. IsSound script.count (record { contexts = lists_of script.contexts.items; rounds = script.rounds }) };
}

impl PartialScript {
    /// The script without a line.
    pub(crate) fn new(alloc: Global) -> PartialScript
        ensures { result ≡ record { contexts = []; rounds = 0 } }
    {
        PartialScript {
            contexts: Vec::new(alloc),
            count: 0,
            rounds: 0,
        }
    }

    /// The script with one line more.
    pub(crate) fn with_line(self, line: &[u8]) -> Result<PartialScript, LineFault>
        ensures { Gives result (λ script. script) (with_script_line self (script_line line.now)) }
    {
        match script_line(line) {
            Ok(ScriptLine::Nothing) => Ok(self),
            Ok(ScriptLine::Round) => self.with_round(),
            Ok(ScriptLine::Keys(number, keys)) => self.with_keys(number, keys),
            Err(cause) => Err(LineFault::Bad(cause)),
        }
    }

    /// The script with one round more.
    fn with_round(self) -> Result<PartialScript, LineFault>
        ensures { Gives result (λ script. script) (with_script_line self (Ok spec.Round)) }
    {
        if self.rounds >= ROUNDS_LIMIT {
            return Err(LineFault::Bad(ScriptCause::Rounds));
        }
        Ok(PartialScript {
            contexts: self.contexts,
            count: self.count,
            rounds: self.rounds + 1,
        })
    }

    /// The script with the keys that a text names behind those of the context of this number.
    fn with_keys(self, number: u8, text: &[u8]) -> Result<PartialScript, LineFault>
        requires first { 1 ≤ number }
        requires last { number ≤ 16 }
        ensures { Gives result (λ script. script) (with_script_line self (spec.key_line (Some number) (keys_in text.now))) }
    {
        let mut contexts = self.contexts;
        let more = add_keys(&mut contexts, number, text)?;
        if more > KEYS_LIMIT - self.count {
            return Err(LineFault::Bad(ScriptCause::Keys));
        }
        Ok(PartialScript {
            contexts,
            count: self.count + more,
            rounds: self.rounds,
        })
    }

    /// The script that was read.
    pub(crate) fn script(self) -> Script
        ensures same { result ≡ self }
        ensures few_contexts { length self.contexts ≤ 16 }
        ensures few_keys { All (λ keys. length keys ≤ 65_536) self.contexts }
        ensures few_rounds { self.rounds ≤ 64 }
    {
        Script {
            contexts: Contexts::of(self.contexts),
            rounds: self.rounds,
        }
    }
}

/// Appends the keys that a text names to those of the context of this number, and tells how many they are.
fn add_keys(contexts: &mut Vec<Vec<KeyStroke>>, number: u8, text: &[u8]) -> Result<usize, LineFault>
    requires { 1 ≤ number }
    ensures { Gives result (λ more. (lists_of contexts.new.items, more)) (added number (keys_in text.now) (lists_of contexts.old.items)) }
{
    match open(contexts, number) {
        Ok(()) => {}
        Err(NoMemory) => return Err(LineFault::NoMemory),
    }
    let keys = &mut contexts[usize::from(number) - 1];
    let had = keys.len();
    push_keys(keys, text)?;
    Ok(keys.len() - had)
}

/// Has each context up to this number, with no keys at first.
fn open(contexts: &mut Vec<Vec<KeyStroke>>, number: u8) -> Result<(), NoMemory>
    requires { 1 ≤ number }
    ensures open { OnOk result (number ≤ length contexts.new.items) }
    ensures same { OnOk result
        ((keys : List Key) → add_keys (number - 1) keys (lists_of contexts.new.items) ≡ add_keys (number - 1) keys (lists_of contexts.old.items)) }
{
    'opening: while contexts.len() < usize::from(number) {
        let keys = Vec::new(*contexts.allocator());
        contexts.push(keys)?;
    }
    Ok(())
}
