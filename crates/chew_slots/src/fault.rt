use thiserror::Error;

/// Why the user's map isn't found.
#[derive(Clone, Copy, Debug, PartialEq, Eq, Error)]
pub enum SlotFault {
    /// A call of the disk failed.
    #[error("a call of the disk failed")]
    DiskFault,
    /// A slot is longer than 2^28 bytes.
    #[error("slot {slot} has {len} bytes")]
    TooLarge { slot: u8, len: u64 },
    /// A slot is open, and its bytes stand for no map: the first faulty place, in bytes from the slot's front.
    #[error("slot {slot} is damaged at {place}")]
    Damaged { slot: u8, place: u64 },
    /// Memory was wanting.
    #[error("memory was wanting")]
    NoMemory,
}
