//! What a program reads from and writes to: sources and sinks whose faults are counted, some in
//! memory that fail where they are told to, and some over the readers and writers of std; and
//! gates, which hold activities at their places.
#![tactic(auto)]

mod disk;
mod fails;
mod failure;
mod folder_disk;
mod gate;
mod hold_gate;
mod interrupts;
mod mem_crash;
mod mem_disk;
mod mem_sink;
mod mem_slot;
mod mem_source;
mod sink;
mod source;
mod std_sink;
mod std_source;

pub use disk::Disk;
pub use fails::Fails;
pub use failure::Failed;
pub use folder_disk::FolderDisk;
pub use gate::{FreeGate, Gate};
pub use hold_gate::{Hold, HoldGate};
pub use mem_disk::MemDisk;
pub use mem_sink::MemSink;
pub use mem_source::MemSource;
pub use sink::{Sink, write_all};
pub use source::{ReadFault, Source, read_up_to};
pub use std_sink::StdSink;
pub use std_source::StdSource;

#[cfg(test)]
mod tests;
