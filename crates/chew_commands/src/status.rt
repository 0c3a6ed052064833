//! The statuses that the program ends with.

/// All that was asked is done.
pub const DONE: u8 = 0;

/// The words are no command.
pub const WRONG_WORDS: u8 = 2;

/// The settings have a fault.
pub const WRONG_SETTINGS: u8 = 3;

/// The system dictionary has a fault.
pub const WRONG_SYSTEM: u8 = 4;

/// The script has a fault.
pub const WRONG_SCRIPT: u8 = 5;

/// A slot is too large or damaged.
pub const WRONG_SLOT: u8 = 6;

/// A source failed.
pub const SOURCE_FAILED: u8 = 7;

/// The sink failed: not all that should be written was.
pub const SINK_FAILED: u8 = 8;

/// The disk failed.
pub const DISK_FAILED: u8 = 9;

/// Memory was wanting.
pub const NO_MEMORY: u8 = 10;

/// The numbers of checkpoints are used up, so that the last one could not be written.
pub const SEQ_SPENT: u8 = 11;
