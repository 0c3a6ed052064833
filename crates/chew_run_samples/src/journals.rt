//! Journals as a trace has them.

ghost use Rattle.std.specs.Prelude.{◌≡◌, IfOk, flat_map, map};
ghost use Rattle.chew_spec_dictionary.specs.History.{own};
ghost use Rattle.chew_spec_text.specs.Entry.{entry_text};
ghost use Rattle.chew_plain.specs.Call.{entry_of};

use chew_plain::Entry;
use chew_script::append_entry;
use chew_syllable::NoMemory;
use std::alloc::Global;

/// The lines of all calls, one behind another.
pub fn calls_text(alloc: Global, journal: &[Entry]) -> Result<Vec<u8>, NoMemory>
    ensures { IfOk result (λ text. text.items ≡ flat_map entry_text (map entry_of journal.now)) }
{
    let mut text = Vec::new(alloc);
    for entry in journal {
        append_entry(&mut text, entry)?;
    }
    Ok(text)
}

/// The lines of the calls of one number.
pub fn own_calls_text(alloc: Global, journal: &[Entry], who: u32) -> Result<Vec<u8>, NoMemory>
    ensures { IfOk result (λ text. text.items ≡ flat_map entry_text (own (map entry_of journal.now) who)) }
{
    let mut text = Vec::new(alloc);
    for entry in journal {
        if entry.who == who {
            append_entry(&mut text, entry)?;
        }
    }
    Ok(text)
}
