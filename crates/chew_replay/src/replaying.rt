//! The lines of a context, by what a journal says.

ghost use Rattle.std.specs.Prelude.{IfOk, IsTrue};
ghost use Rattle.std.specs.List.{list_all};
ghost use Rattle.chew_spec_text.specs.KeyStroke.{is_key_stroke};
ghost use Rattle.chew_script.specs.Keys.{keys_of};

use crate::fault::ReplayFault;
use crate::retold::Retold;
use crate::typing::Typist;
use chew_plain::{Entry, RowMap};
use chew_samples::five;
use chew_script::{KeyStroke, read_script};
use chew_settings::Settings;
use std::alloc::Global;

/// The keys that a script's text has for a context, behind its number.
pub fn keys_in(alloc: Global, text: &str) -> Result<Vec<KeyStroke>, ReplayFault>
    ensures { IfOk result (λ keys. IsTrue (list_all is_key_stroke (keys_of keys.items))) }
{
    let text = format!(in alloc; "1:{text}")?;
    let Ok(script) = read_script(alloc, text.as_bytes()) else {
        return Err(ReplayFault::Differs);
    };
    match script.contexts.lists() {
        [] => Err(ReplayFault::Differs),
        [keys, ..] => Ok(Vec::from_slice(alloc, keys.as_slice())?),
    }
}

/// The lines that a context prints for its keys over the five rows, from the empty dictionary on, where each of its calls is
/// answered where it stands in the journal. It makes all its calls that stand there, and no other.
pub fn replay(
    alloc: Global,
    settings: &Settings,
    journal: &[Entry],
    who: u32,
    keys: &[KeyStroke],
) -> Result<Vec<u8>, ReplayFault>
    requires { IsTrue (list_all is_key_stroke (keys_of keys.now)) }
{
    let retold = Retold::new(alloc, settings.cap)?;
    let system = RowMap::of(five(alloc)?)?;
    let mut typist = Typist::new(alloc, system, settings, retold);
    for key in keys {
        typist = typist.pressed(alloc, journal, who, *key)?;
    }
    let Typist { retold, lines, .. } = typist;
    if retold.has_told_all(journal, who) {
        Ok(lines)
    } else {
        Err(ReplayFault::Differs)
    }
}
