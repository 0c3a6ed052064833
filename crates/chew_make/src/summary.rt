ghost use Rattle.std.specs.Prelude.{◌≡◌, ◌++◌, IfOk, OnOk};
ghost use Rattle.chew_spec_program.specs.Make.{number_line, summary_text};

use chew_syllable::NoMemory;
use chew_text::append_decimal;
use std::alloc::Global;
use std::marker::Model;

/// How many steps a generated script has.
pub(crate) const STEPS: u32 = 4096;

/// What came of a generated script.
#[derive(Debug, Drop)]
pub(crate) struct Summary {
    pub(crate) steps: u32,
    /// How many keys were typed.
    pub(crate) keys: u64,
    /// How many of their lines committed something.
    pub(crate) commits: u64,
    /// How many calls of the dictionary were made.
    pub(crate) entries: u64,
    /// The life of the dictionary then.
    pub(crate) life: u64,
    /// How many pairs it holds then.
    pub(crate) pairs: u32,
}

impl Model for Summary {
    ghost use Rattle.chew_spec_program.specs.Make as spec;

    ghost Value = { spec.Summary };

    ghost view = { λ s. record { steps = s.steps; keys = s.keys; commits = s.commits; entries = s.entries; life = s.life; pairs = s.pairs } };
}

impl Summary {
    /// Its six lines.
    pub(crate) fn text(&self, alloc: Global) -> Result<Vec<u8>, NoMemory>
        ensures { IfOk result (λ text. text.items ≡ summary_text self.now) }
    {
        let mut text = Vec::new(alloc);
        append_line(&mut text, "steps", u64::from(self.steps))?;
        append_line(&mut text, "keys", self.keys)?;
        append_line(&mut text, "commits", self.commits)?;
        append_line(&mut text, "entries", self.entries)?;
        append_line(&mut text, "life", self.life)?;
        append_line(&mut text, "pairs", u64::from(self.pairs))?;
        Ok(text)
    }
}

/// Appends a line that tells a number.
fn append_line(text: &mut Vec<u8>, word: &str, number: u64) -> Result<(), NoMemory>
    ensures { OnOk result (text.new.items ≡ text.old.items ++ number_line word.now number) }
{
    text.extend_from_slice(word.as_bytes())?;
    text.push(b' ')?;
    append_decimal(text, number)?;
    text.push(b'\n')?;
    Ok(())
}
