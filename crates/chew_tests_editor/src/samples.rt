//! Editors over the five rows, the keys of a text, and settings other than the standard ones.

ghost use Rattle.std.specs.Prelude.{◌≡◌, ◌≤◌, IfOk, IfSome, IsTrue};
ghost use Rattle.std.specs.List.{list_all};
ghost use Rattle.chew_spec_syllable.specs.Row.{is_pair};
ghost use Rattle.chew_spec_text.specs.KeyStroke.{is_key_stroke};
ghost use Rattle.chew_script.specs.Keys.{keys_of};

use crate::alone::Alone;
use chew_layouts::Kind;
use chew_plain::{Plain, RowMap};
use chew_samples::{CE, SHI, five, syllable};
use chew_script::{KeyStroke, read_script};
use chew_settings::Settings;
use chew_syllable::{Key, NoMemory, Phrase};
use std::alloc::Global;
use std::process::Abort;
use std::test::Fail;

/// The keys that a script's text has for its first context.
pub(crate) fn keys_in(alloc: Global, text: &str) -> Result<Vec<KeyStroke>, Fail>
    ensures { IfOk result (λ keys. IsTrue (list_all is_key_stroke (keys_of keys.items))) }
{
    let text = format!(in alloc; "1:{text}")?;
    let Ok(script) = read_script(alloc, text.as_bytes()) else {
        return Err(Fail::new("no script"));
    };
    match script.contexts.lists() {
        [] => Err(Fail::new("no context")),
        [keys, ..] => Ok(Vec::from_slice(alloc, keys.as_slice())?),
    }
}

/// An editor over the five rows and a dictionary without a pair.
pub(crate) fn over_five(alloc: Global, settings: &Settings) -> Result<Alone, NoMemory> {
    let plain = Plain::of(Vec::new(alloc), 0, settings.cap)?;
    Ok(Alone::new(alloc, RowMap::of(five(alloc)?)?, settings, plain))
}

/// After the keys of this text too.
pub(crate) fn typed(alloc: Global, alone: Alone, text: &str) -> Result<Alone, Fail> {
    let keys = keys_in(alloc, text)?;
    Ok(alone.typed(alloc, keys.as_slice())?)
}

/// An editor over the five rows and a dictionary without a pair, after the keys of this text.
pub(crate) fn after(alloc: Global, settings: &Settings, text: &str) -> Result<Alone, Fail> {
    typed(alloc, over_five(alloc, settings)?, text)
}

/// The standard settings but for the cells, the candidates of a page, whether it learns, and the pairs.
pub(crate) fn settings(buffer: u8, page: u8, learn: bool, cap: u32) -> Settings
    requires cells { 1 ≤ buffer }
    requires most_cells { buffer ≤ 39 }
    requires candidates { 1 ≤ page }
    requires most_candidates { page ≤ 10 }
    requires pairs { 1 ≤ cap }
    requires most_pairs { cap ≤ 200_000 }
{
    Settings {
        layout: Kind::Standard,
        buffer,
        page,
        selection: *b"1234567890",
        escape_clears: false,
        learn,
        cap,
    }
}

/// 策試 under its syllables.
pub(crate) fn ce_shi() -> Result<(Key, Phrase), Fail>
    ensures { IfOk result (λ pair. IsTrue (is_pair pair.0 pair.1)) }
{
    match pair("策試") {
        Some(pair) => Ok(pair),
        None => Err(Fail::new("no pair")),
    }
}

/// The pair of a text and ㄘㄜˋ ㄕˋ.
fn pair(text: &str) -> Option<(Key, Phrase)>
    ensures { IfSome result (λ pair. IsTrue (is_pair pair.0 pair.1)) }
{
    let key = Key::of(&[syllable(CE), syllable(SHI)])?;
    let Ok(phrase) = Phrase::read(text.as_bytes()) else {
        return None;
    };
    if phrase.characters() != key.len() {
        return None;
    }
    Some((key, phrase))
}

/// The lines end with these.
pub(crate) fn ends_with(rt: &impl Abort, alone: &Alone, lines: &str) {
    assert!(rt; alone.lines.as_slice().ends_with(lines.as_bytes()));
}

/// The calls are these.
pub(crate) fn calls(rt: &impl Abort, alone: &Alone, wanted: &str) {
    assert_eq!(rt; alone.calls.as_slice(), wanted.as_bytes());
}
