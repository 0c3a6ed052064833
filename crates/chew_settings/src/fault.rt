use crate::keys::SettingName;
use thiserror::Error;

/// Why a text gives no settings, in the order in which it is told; `Kind` and `Range` are told setting by setting.
#[derive(Clone, Copy, Debug, PartialEq, Eq, Error)]
pub enum SettingCause {
    /// The text is longer than 64 KiB.
    #[error("the text is longer than 64 KiB")]
    Size,
    /// The text is no table of TOML.
    #[error("the text is no table of TOML")]
    Toml,
    /// A key of the table is no setting.
    #[error("a key is no setting")]
    Unknown,
    /// The value of a setting is of another kind.
    #[error("the value is of another kind")]
    Kind,
    /// The value of a setting is outside its range.
    #[error("the value is outside its range")]
    Range,
}

/// Why no settings are read.
#[derive(Clone, Copy, Debug, PartialEq, Eq, Error)]
pub enum SettingsFault {
    /// The setting that has the fault, or `Other` where it is none's, and why.
    #[error("{key}: {cause}")]
    Bad {
        key: SettingName,
        cause: SettingCause,
    },
    /// Memory was wanting.
    #[error("memory was wanting")]
    NoMemory,
}
