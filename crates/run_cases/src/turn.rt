//! The runs of a case, where there are several.

use crate::case::Part;
use crate::failure::Failure;
use std::alloc::{AllocError, Global};

/// What the number says by which the runs of a case differ.
#[derive(Clone, Copy, PartialEq, Eq)]
pub(crate) enum What {
    /// Which call fails.
    SettingsCall,
    SystemCall,
    ScriptCall,
    SinkCall,
    DiskCall,
    /// How many bytes are left of slot 0.
    SlotLength,
    /// How many spaces the settings or the system are, or how long a comment the script is.
    SettingsLength,
    SystemLength,
    ScriptLength,
}

impl What {
    /// By its name.
    fn named(name: &str) -> Result<What, Failure> {
        match name {
            "settings-call" => Ok(What::SettingsCall),
            "system-call" => Ok(What::SystemCall),
            "script-call" => Ok(What::ScriptCall),
            "sink-call" => Ok(What::SinkCall),
            "disk-call" => Ok(What::DiskCall),
            "slot-length" => Ok(What::SlotLength),
            "settings-length" => Ok(What::SettingsLength),
            "system-length" => Ok(What::SystemLength),
            "script-length" => Ok(What::ScriptLength),
            _ => Err(Failure::OtherKind),
        }
    }

    /// Whose calls or bytes are counted.
    pub(crate) fn object(self) -> &'static str {
        match self {
            What::SettingsCall | What::SettingsLength => "settings",
            What::SystemCall | What::SystemLength => "system",
            What::ScriptCall | What::ScriptLength => "script",
            What::SinkCall => "sink",
            What::DiskCall | What::SlotLength => "disk",
        }
    }

    fn is_call(self) -> bool {
        match self {
            What::SettingsCall
            | What::SystemCall
            | What::ScriptCall
            | What::SinkCall
            | What::DiskCall => true,
            What::SlotLength | What::SettingsLength | What::SystemLength | What::ScriptLength =>
                false,
        }
    }
}

/// One of the runs of a case.
#[derive(Clone, Copy)]
pub(crate) struct Turn {
    /// The number by which it differs from the others, and of what.
    pub(crate) number: u64,
    what: Option<What>,
    /// How many calls come before the one that is counted as 1, and whether all later ones fail too.
    behind: u64,
    pub(crate) later: bool,
}

impl Turn {
    /// The only run of a case.
    pub(crate) fn only() -> Turn {
        Turn {
            number: 0,
            what: None,
            behind: 0,
            later: false,
        }
    }

    /// Whether the runs differ by this.
    pub(crate) fn is_of(&self, what: What) -> bool {
        self.what == Some(what)
    }

    /// The call that fails.
    pub(crate) fn call(&self) -> u64 {
        self.behind.wrapping_add(self.number)
    }
}

/// The runs of a case: one, or one for each number from the first to the last. Where that is a call that fails, it fails alone
/// and then with all later ones, if the case doesn't say which.
pub(crate) fn turns_of(alloc: Global, each: Part) -> Result<Vec<Turn>, Failure> {
    let mut turns = Vec::new(alloc);
    let Some(name) = each.text("what")? else {
        turns.push(Turn::only())?;
        return Ok(turns);
    };
    let what = What::named(name)?;
    let (Some(from), Some(upto)) = (each.number("from")?, each.number("upto")?) else {
        return Err(Failure::NoCase);
    };
    let behind = each.number("behind")?.unwrap_or(0);
    let later = each.truth("later")?;
    for number in from..upto.saturating_add(1) {
        let first = Turn {
            number,
            what: Some(what),
            behind,
            later: false,
        };
        push_turns(&mut turns, first, later)?;
    }
    Ok(turns)
}

/// Adds the run of a number, with the call alone, with all later ones, or first so and then so.
fn push_turns(turns: &mut Vec<Turn>, turn: Turn, later: Option<bool>) -> Result<(), AllocError> {
    let is_call = turn.what.is_some_and(|what| what.is_call());
    if later != Some(true) {
        turns.push(turn)?;
    }
    if is_call && later != Some(false) {
        turns.push(Turn {
            later: true,
            ..turn
        })?;
    }
    Ok(())
}
