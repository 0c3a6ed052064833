/// The most bytes of a script, 1 MiB.
pub const SCRIPT_LIMIT: usize = 1_048_576;

/// The most keys of all contexts of a script.
pub const KEYS_LIMIT: usize = 65_536;

/// The most rounds of a script.
pub const ROUNDS_LIMIT: u32 = 64;

/// The most contexts of a script.
pub const CONTEXTS_LIMIT: usize = 16;
