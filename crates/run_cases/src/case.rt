//! A file of cases, as it is read.

use crate::failure::Failure;
use std::alloc::Global;
use toml::{Table, Value};

/// A table of a file, or none where it isn't given. Every value that is asked for has to be of the kind that is wanted.
#[derive(Clone, Copy)]
pub(crate) struct Part<'a> {
    table: Option<&'a Table>,
}

impl<'a> Part<'a> {
    /// This table.
    pub(crate) fn of(table: &'a Table) -> Part<'a> {
        Part { table: Some(table) }
    }

    /// Whether there is no such table.
    pub(crate) fn is_none(self) -> bool {
        self.table.is_none()
    }

    fn get(self, key: &str) -> Option<&'a Value> {
        self.table?.get(key)
    }

    /// The table under a key.
    pub(crate) fn part(self, key: &str) -> Result<Part<'a>, Failure> {
        match self.get(key) {
            Some(value) => match value.as_table() {
                Some(table) => Ok(Part::of(table)),
                None => Err(Failure::OtherKind),
            },
            None => Ok(Part { table: None }),
        }
    }

    /// The text under a key.
    pub(crate) fn text(self, key: &str) -> Result<Option<&'a str>, Failure> {
        match self.get(key) {
            Some(value) => match value.as_str() {
                Some(text) => Ok(Some(text)),
                None => Err(Failure::OtherKind),
            },
            None => Ok(None),
        }
    }

    /// The number under a key.
    pub(crate) fn number(self, key: &str) -> Result<Option<u64>, Failure> {
        match self.get(key) {
            Some(value) => Ok(Some(number_of(value)?)),
            None => Ok(None),
        }
    }

    /// The truth under a key.
    pub(crate) fn truth(self, key: &str) -> Result<Option<bool>, Failure> {
        match self.get(key) {
            Some(value) => match value.as_bool() {
                Some(truth) => Ok(Some(truth)),
                None => Err(Failure::OtherKind),
            },
            None => Ok(None),
        }
    }

    /// The list under a key, which is empty where it isn't given.
    pub(crate) fn list(self, key: &str) -> Result<&'a [Value], Failure> {
        match self.get(key) {
            Some(value) => match value.as_array() {
                Some(list) => Ok(list.as_slice()),
                None => Err(Failure::OtherKind),
            },
            None => Ok(&[]),
        }
    }

    /// Whether something stands under a key.
    pub(crate) fn has(self, key: &str) -> bool {
        self.get(key).is_some()
    }

    /// The texts of the list under a key.
    pub(crate) fn texts(self, alloc: Global, key: &str) -> Result<Vec<&'a str>, Failure> {
        let mut texts = Vec::new(alloc);
        for value in self.list(key)? {
            texts.push(text_of(value)?)?;
        }
        Ok(texts)
    }

    /// The numbers of the list under a key.
    pub(crate) fn numbers(self, alloc: Global, key: &str) -> Result<Vec<u64>, Failure> {
        let mut numbers = Vec::new(alloc);
        for value in self.list(key)? {
            numbers.push(number_of(value)?)?;
        }
        Ok(numbers)
    }

    /// The keys of the table with the texts that stand there.
    pub(crate) fn pairs(self, alloc: Global) -> Result<Vec<(&'a str, &'a Value)>, Failure> {
        let mut pairs = Vec::new(alloc);
        if let Some(table) = self.table {
            for (key, value) in table.iter() {
                pairs.push((key.as_str(), value))?;
            }
        }
        Ok(pairs)
    }

    /// The table has no other keys than these.
    pub(crate) fn has_only(self, keys: &[&str]) -> Result<(), Failure> {
        if let Some(table) = self.table {
            for key in table.keys() {
                if !is_one_of(key.as_str(), keys) {
                    return Err(Failure::OtherKey);
                }
            }
        }
        Ok(())
    }
}

fn is_one_of(key: &str, keys: &[&str]) -> bool {
    for known in keys {
        if *known == key {
            return true;
        }
    }
    false
}

/// A value that has to be a text.
pub(crate) fn text_of(value: &Value) -> Result<&str, Failure> {
    match value.as_str() {
        Some(text) => Ok(text),
        None => Err(Failure::OtherKind),
    }
}

/// A value that has to be a number of 0 or more.
pub(crate) fn number_of(value: &Value) -> Result<u64, Failure> {
    match value.as_integer() {
        Some(number) => match u64::try_from(number) {
            Ok(number) => Ok(number),
            Err(_) => Err(Failure::OtherKind),
        },
        None => Err(Failure::OtherKind),
    }
}

/// A case: a run over what stands in memory, and what has to come of it.
#[derive(Clone, Copy)]
pub(crate) struct Case<'a> {
    /// By what its runs differ, where there are several.
    pub(crate) each: Part<'a>,
    /// What a run reads: where nothing else is said, no settings, the five rows, an empty script and empty slots.
    pub(crate) given: Part<'a>,
    /// Which calls fail, and what holds contexts and the worker at their places.
    pub(crate) fails: Part<'a>,
    pub(crate) gate: Part<'a>,
    /// What has to come of it, and what its disk then has.
    pub(crate) wanted: Part<'a>,
    pub(crate) left: Part<'a>,
}

const KEYS: [&str; 7] = ["name", "each", "given", "fails", "gate", "wanted", "left"];

const EACH_KEYS: [&str; 5] = ["what", "from", "upto", "behind", "later"];

const GIVEN_KEYS: [&str; 10] = [
    "words", "settings", "system", "built", "image", "script", "read", "zero", "one", "crash",
];

const FAILS_KEYS: [&str; 5] = ["settings", "system", "script", "sink", "disk"];

const GATE_KEYS: [&str; 3] = ["turns", "expires", "holds"];

const WANTED_KEYS: [&str; 10] = [
    "status", "printed", "handled", "rounds", "beside", "calls", "calls_of", "calls_at", "count",
    "count_of",
];

const LEFT_KEYS: [&str; 9] = [
    "map",
    "frequencies",
    "zero",
    "one",
    "unchanged",
    "by_pick",
    "maps",
    "again",
    "again_maps",
];

/// The name of a case.
pub(crate) fn name_of(value: &Value) -> Result<&str, Failure> {
    let Some(table) = value.as_table() else {
        return Err(Failure::OtherKind);
    };
    match Part::of(table).text("name")? {
        Some(name) => Ok(name),
        None => Err(Failure::NoCase),
    }
}

/// A case of a file. It has known keys alone.
pub(crate) fn case_of(value: &Value) -> Result<Case<'_>, Failure> {
    let Some(table) = value.as_table() else {
        return Err(Failure::OtherKind);
    };
    let case = Part::of(table);
    case.has_only(&KEYS)?;
    Ok(Case {
        each: part_of(case, "each", &EACH_KEYS)?,
        given: part_of(case, "given", &GIVEN_KEYS)?,
        fails: part_of(case, "fails", &FAILS_KEYS)?,
        gate: part_of(case, "gate", &GATE_KEYS)?,
        wanted: part_of(case, "wanted", &WANTED_KEYS)?,
        left: part_of(case, "left", &LEFT_KEYS)?,
    })
}

/// A part of a case, with these keys alone.
fn part_of<'a>(case: Part<'a>, key: &str, keys: &[&str]) -> Result<Part<'a>, Failure> {
    let part = case.part(key)?;
    part.has_only(keys)?;
    Ok(part)
}
