//! What a run reads and writes, in memory.

use chew_outside::{MemDisk, MemSink, MemSource};

/// What a run reads and writes.
#[derive(Drop)]
pub struct Outside {
    pub settings: MemSource,
    pub system: MemSource,
    pub script: MemSource,
    pub sink: MemSink,
    pub disk: MemDisk,
}
