/// What a layer says of a pair.
#[derive(Clone, Copy, Debug, PartialEq, Eq)]
pub enum Mark {
    /// The pair is held.
    Live {
        /// At most 99,999,999.
        freq: u32,
        /// The life of the dictionary at the last learn, or 2^64 - 1 where the pair is hidden.
        time: u64,
    },
    /// The pair is gone.
    Grave,
}
