ghost use Rattle.std.specs.Prelude.{◌≡◌, ◌++◌, ◌∷◌, [], IfOk, OnErr};
ghost use Rattle.chew_spec_text.specs.Entry.{call_parts, codes_text, entry_text, parted};
ghost use Rattle.chew_spec_text.specs.Line.{with_line_feed};
ghost use Rattle.chew_plain.specs.Call.{call_of, entry_of};
ghost use Rattle.chew_text.specs.Fronts.{IsFront};

use crate::text::Text;
use chew_plain::{Call, Entry};
use chew_syllable::{Key, NoMemory, Phrase, Syllable};
use chew_text::{append_fields, append_number};
use std::alloc::Global;

/// The line of an entry in a trace: who made the call, its word and what it is about, parted by one space each, and a
/// line feed at its end. Only want of memory is told, as `NoMemory`.
pub fn print_entry(alloc: Global, entry: &Entry) -> Result<Text, NoMemory>
    ensures { IfOk result (λ text. text ≡ entry_text (entry_of entry.now)) }
{
    let mut text = Vec::new(alloc);
    append_entry(&mut text, entry)?;
    Ok(Text::of(text))
}

/// Appends the line of an entry in a trace, whole or not at all. Only want of memory is told, as `NoMemory`.
pub fn append_entry(text: &mut Vec<u8>, entry: &Entry) -> Result<(), NoMemory>
    ensures ok { IfOk result (λ _. text.new.items ≡ text.old.items ++ entry_text (entry_of entry.now)) }
    ensures err { OnErr result (text.new.items ≡ text.old.items) }
{
    let had = text.len();
    match push_entry(text, entry) {
        Ok(()) => Ok(()),
        Err(NoMemory) => {
            text.truncate(had);
            Err(NoMemory)
        }
    }
}

/// Appends the line of an entry, or a front of it.
#[tactic(auto, unfolding(chew_spec_text::specs::Entry::entry_text))]
fn push_entry(text: &mut Vec<u8>, entry: &Entry) -> Result<(), NoMemory>
    ensures ok { IfOk result (λ _. text.new.items ≡ text.old.items ++ entry_text (entry_of entry.now)) }
    ensures err { OnErr result (IsFront text.old.items text.new.items) }
{
    append_number(text, u64::from(entry.who), b' ')?;
    push_call(text, &entry.call)
}

/// Appends the word of a call with what it is about and a line feed, or a front of it.
fn push_call(text: &mut Vec<u8>, call: &Call) -> Result<(), NoMemory>
    ensures ok { IfOk result (λ _. text.new.items ≡ text.old.items ++ with_line_feed (parted (call_parts (call_of call.now)))) }
    ensures err { OnErr result (IsFront text.old.items text.new.items) }
{
    match call {
        Call::Look(run) => {
            append_fields(text, &[(b"look", b' ')])?;
            push_codes(text, run.list(), b'\n')
        }
        Call::Learn {
            key,
            phrase,
            orig,
            peak,
        } => {
            push_pair(text, b"learn", key, phrase, b' ')?;
            append_number(text, u64::from(*orig), b' ')?;
            append_number(text, u64::from(*peak), b'\n')
        }
        Call::Forget { key, phrase } => push_pair(text, b"forget", key, phrase, b'\n'),
        Call::Hide { key, phrase } => push_pair(text, b"hide", key, phrase, b'\n'),
        Call::Freeze => append_fields(text, &[(b"freeze", b'\n')]),
        Call::Install(number) => {
            append_fields(text, &[(b"install", b' ')])?;
            append_number(text, *number, b'\n')
        }
    }
}

/// Appends the word of a call, the codes of a key, a phrase and the byte that stands behind them, or a front of it.
fn push_pair(
    text: &mut Vec<u8>,
    word: &[u8],
    key: &Key,
    phrase: &Phrase,
    end: u8,
) -> Result<(), NoMemory>
    ensures ok { IfOk result (λ _. text.new.items ≡ text.old.items ++ (parted (word.now ∷ (codes_text key.now ∷ (phrase.now ∷ []))) ++ end ∷ [])) }
    ensures err { OnErr result (IsFront text.old.items text.new.items) }
{
    append_fields(text, &[(word, b' ')])?;
    push_codes(text, key.list(), b' ')?;
    append_fields(text, &[(phrase.text().as_bytes(), end)])
}

/// Appends the codes of syllables, parted by commas, and the byte that stands behind them, or a front of it.
fn push_codes(text: &mut Vec<u8>, syllables: &[Syllable], end: u8) -> Result<(), NoMemory>
    ensures ok { IfOk result (λ _. text.new.items ≡ text.old.items ++ (codes_text syllables.now ++ end ∷ [])) }
    ensures err { OnErr result (IsFront text.old.items text.new.items) }
{
    match syllables {
        [] => append_fields(text, &[(b"", end)]),
        [last] => append_number(text, u64::from(last.code()), end),
        [first, rest @ ..] => {
            append_number(text, u64::from(first.code()), b',')?;
            push_codes(text, rest, end)
        }
    }
}
