use chew_syllable::SYSTEM_ROWS_LIMIT;

/// The most bytes of a dictionary's text, 64 MiB.
pub const SYSTEM_LIMIT: usize = 67_108_864;

/// The most rows of a dictionary's text.
pub const ROWS_LIMIT: usize = SYSTEM_ROWS_LIMIT as usize;
