//! Long walks over the five rows: keys that a fixed rule makes, each with its line and its calls, compared with those of
//! the second reading.

ghost use Rattle.std.specs.Prelude.{◌≤◌, IsTrue};
ghost use Rattle.std.specs.List.{list_all};
ghost use Rattle.chew_spec_text.specs.KeyStroke.{is_key_stroke};
ghost use Rattle.chew_script.specs.Keys.{keys_of};

use crate::alone::Alone;
use crate::book::Book;
use crate::samples::{keys_in, over_five};
use crate::second::{Rules, Second};
use chew_layouts::{Kind, Layout};
use chew_plain::Plain;
use chew_samples::five;
use chew_script::KeyStroke;
use chew_settings::Settings;
use std::alloc::Global;
use std::process::Abort;
use std::test::Fail;

/// What the rule takes its keys from, as a script writes them: whole syllables, parts of one, one that has no row, symbols,
/// each named key, and some that belong together.
const STEPS: [&str; 64] = [
    "hk4",
    "g4",
    "hk4",
    "g4",
    "hk4",
    "g4",
    "hk4g4",
    "hk4g4",
    "g4hk4",
    "hk4g4",
    "g4",
    "hk4",
    "hk4hk4g4",
    "g4g4",
    "hk4g4hk4g4",
    "h",
    "k",
    "4",
    "18 ",
    "1",
    "2",
    "3",
    "7",
    "!",
    " ",
    "a",
    "<lt>",
    "<E>",
    "<E>",
    "<B>",
    "<B>",
    "<D>",
    "<D>",
    "<L>",
    "<L>",
    "<R>",
    "<H>",
    "<Z>",
    "<U>",
    "<V>",
    "<V>",
    "<V><V>",
    "<P>",
    "<N>",
    "<T>",
    "<T>",
    "<X>",
    "<H><C2>",
    "<C3>",
    "<C4>",
    "<C9>",
    "<F1>",
    "<F2>",
    "<F3>",
    "<H><K2>",
    "<K2>",
    "<K3>",
    "<H><V>2",
    "<V>2",
    "<V><V>1",
    "<L><L><V><V>2",
    "<L><T>",
    "<H><R><T>",
    "<H><F2>",
];

/// So many steps, from this number on.
fn walk(alloc: Global, seed: u32, count: u32) -> Result<String, Fail> {
    let mut text = String::new(alloc);
    let mut number = seed;
    for _step in 0..count {
        number = number.wrapping_mul(1_103_515_245).wrapping_add(12_345);
        let at = (number >> 16) % 64;
        if let Some(step) = STEPS.get(at as usize) {
            text.push_str(step)?;
        }
    }
    Ok(text)
}

/// A second reading of an editor over the five rows and a dictionary without a pair.
fn second(alloc: Global, settings: &Settings) -> Result<Second, Fail> {
    Ok(Second {
        rules: Rules {
            buffer: usize::from(settings.buffer),
            page: usize::from(settings.page),
            selection: settings.selection,
            escape_clears: settings.escape_clears,
            learn: settings.learn,
        },
        system: five(alloc)?,
        book: Book {
            plain: Plain::of(Vec::new(alloc), 0, settings.cap)?,
            calls: Vec::new(alloc),
        },
        layout: Layout::of(settings.layout),
        cells: Vec::new(alloc),
        cursor: 0,
        breaks: Vec::new(alloc),
        choices: Vec::new(alloc),
        shown: Vec::new(alloc),
        opened: None,
        commit: String::new(alloc),
    })
}

/// Each key has the line and the calls of the second reading.
fn same(
    rt: &impl Abort,
    alloc: Global,
    alone: Alone,
    second: Second,
    keys: &[KeyStroke],
) -> Result<(), Fail>
    requires { IsTrue (list_all is_key_stroke (keys_of keys.now)) }
{
    let mut alone = alone;
    let mut second = second;
    for key in keys {
        alone.lines.clear();
        alone.calls.clear();
        second.book.calls.clear();
        alone = alone.pressed(alloc, *key)?;
        let line = second.press(alloc, *key)?;
        assert_eq!(rt; alone.lines.as_slice(), line.as_bytes());
        assert_eq!(rt; alone.calls.as_slice(), second.book.calls.as_slice());
    }
    assert_eq!(rt; alone.plain.pairs(), second.book.plain.pairs());
    assert_eq!(rt; alone.plain.life(), second.book.plain.life());
    Ok(())
}

/// A walk of so many steps.
fn walks(
    rt: &impl Abort,
    alloc: Global,
    settings: &Settings,
    seed: u32,
    count: u32,
) -> Result<(), Fail> {
    let keys = keys_in(alloc, &walk(alloc, seed, count)?)?;
    let alone = over_five(alloc, settings)?;
    same(rt, alloc, alone, second(alloc, settings)?, keys.as_slice())
}

#[test]
fn a_walk_with_the_standard_settings(rt: HostRuntime) -> Result<(), Fail> {
    walks(&rt, rt.alloc(), &Settings::standard(), 1, 2000)
}

#[test]
fn a_walk_with_few_cells_pages_and_pairs(rt: HostRuntime) -> Result<(), Fail> {
    let settings = Settings {
        layout: Kind::Standard,
        buffer: 4,
        page: 1,
        selection: *b"asdfghjkl;",
        escape_clears: true,
        learn: true,
        cap: 3,
    };
    walks(&rt, rt.alloc(), &settings, 2, 1000)
}

#[test]
fn a_walk_without_learning(rt: HostRuntime) -> Result<(), Fail> {
    let settings = Settings {
        layout: Kind::Standard,
        buffer: 7,
        page: 2,
        selection: *b"1234567890",
        escape_clears: false,
        learn: false,
        cap: 65_536,
    };
    walks(&rt, rt.alloc(), &settings, 3, 1000)
}
