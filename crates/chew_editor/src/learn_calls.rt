ghost use Rattle.std.specs.Prelude.{◌≡◌, ◌≤◌, IfOk, IsTrue, chars, encode_utf8_all, flat_map, length, map};
ghost use Rattle.chew_spec_syllable.specs.Key.{is_key};
ghost use Rattle.chew_spec_syllable.specs.Phrase.{is_phrase};
ghost use Rattle.chew_spec_syllable.specs.Row.{is_pair};
ghost use Rattle.chew_spec_editor.specs.Learning.{code_in, learn_call};
ghost use Rattle.chew_plain.specs.Call.{call_of};
ghost use Rattle.chew_preedit.specs.CellItem.{cell_of};
ghost use Rattle.chew_editor.specs.Spans.{learn_of};

use crate::line::text_of;
use arrayvec::ArrayVec;
use chew_plain::{Call, Lexicon};
use chew_preedit::CellItem;
use chew_syllable::{KEY_LIMIT, Key, NoMemory, Phrase, Syllable};
use std::alloc::Global;

/// The learn of cells as they are shown.
pub(crate) fn learn_of<L: Lexicon>(
    alloc: Global,
    system: &L,
    cells: &[CellItem],
    shown: &[char],
) -> Result<Call, NoMemory>
    requires few { length cells.now ≤ 11 }
    requires pair { IsTrue (is_pair (flat_map code_in (map cell_of cells.now)) (encode_utf8_all shown.now)) }
    ensures { IfOk result (λ call. call_of call ≡ learn_of (L.rows system.now) (map cell_of cells.now) shown.now) }
{
    let (key, phrase) = pair_of(alloc, cells, shown)?;
    Ok(learn_call(system, key, phrase))
}

/// The syllables of cells, and what is shown of them: a character for each.
pub(crate) fn pair_of(
    alloc: Global,
    cells: &[CellItem],
    shown: &[char],
) -> Result<(Key, Phrase), NoMemory>
    requires few { length cells.now ≤ 11 }
    requires pair { IsTrue (is_pair (flat_map code_in (map cell_of cells.now)) (encode_utf8_all shown.now)) }
    ensures key { IfOk result (λ both. both.0 ≡ flat_map code_in (map cell_of cells.now)) }
    ensures phrase { IfOk result (λ both. both.1 ≡ encode_utf8_all shown.now) }
    ensures long { IfOk result (λ both. length (chars both.1) ≡ length both.0) }
{
    let key = key_of(cells);
    let phrase = phrase_of(alloc, shown)?;
    Ok((key, phrase))
}

/// A phrase is learnt with the frequency that the system has for it, and its greatest for the key.
#[tactic(auto, unfolding(chew_spec_editor::specs::Learning::learn_call))]
pub(crate) fn learn_call<L: Lexicon>(system: &L, key: Key, phrase: Phrase) -> Call
    ensures { call_of result ≡ learn_call (L.rows system.now) key phrase }
{
    let (orig, peak) = system.orig_and_peak(key.list(), phrase.text());
    Call::Learn {
        key,
        phrase,
        orig,
        peak,
    }
}

/// The syllables of cells as a key.
fn key_of(cells: &[CellItem]) -> Key
    requires few { length cells.now ≤ 11 }
    requires key { IsTrue (is_key (flat_map code_in (map cell_of cells.now))) }
    ensures { result ≡ flat_map code_in (map cell_of cells.now) }
{
    let syllables = syllables_of(cells);
    Key::of_some(syllables.as_slice())
}

/// The syllables among the cells.
fn syllables_of(cells: &[CellItem]) -> ArrayVec<Syllable, KEY_LIMIT>
    requires { length cells.now ≤ 11 }
    ensures { result.items ≡ flat_map code_in (map cell_of cells.now) }
{
    let mut syllables = ArrayVec::new();
    for cell in cells {
        if let CellItem::Sound(syllable) = cell {
            syllables.push(*syllable);
        }
    }
    syllables
}

/// Characters as a phrase.
fn phrase_of(alloc: Global, shown: &[char]) -> Result<Phrase, NoMemory>
    requires { IsTrue (is_phrase (encode_utf8_all shown.now)) }
    ensures { IfOk result (λ phrase. phrase ≡ encode_utf8_all shown.now) }
{
    let text = text_of(alloc, shown)?;
    Ok(Phrase::of(text.as_str()))
}
