use crate::hits::Hits;

/// What the user's dictionary answers.
#[derive(Debug, Drop)]
pub enum Reply {
    /// To a look: what it found.
    Rows(Hits),
    /// To a learn: what the pair has now.
    Learned {
        /// At most 99,999,999.
        freq: u32,
        /// How many learns came before, at most 2^64 - 2.
        time: u64,
    },
    /// To a learn or a hide of a pair that is not held, where the dictionary holds as many pairs as its cap.
    Full,
    /// To a forget: the pair was held, and went.
    Forgot,
    /// To a forget of a pair that is not held, and to a hide of one that is hidden.
    NotThere,
    /// To a hide: the pair was not hidden, and is now.
    Hid,
    /// To a freeze: the number of the snapshot that waits, which is that of the entries before it.
    Frozen(u64),
    /// To an install.
    Installed,
}
