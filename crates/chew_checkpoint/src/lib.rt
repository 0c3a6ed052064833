//! Checkpoints of the shared dictionary: a snapshot is merged into a map, and the map is written to the slots of a disk, so that
//! a crash at any moment leaves the map of the last checkpoint or that of the one being written.
#![tactic(auto)]

mod checkpointer;
mod fault;
mod round;
mod rounds;
mod steps;
mod write;

pub use checkpointer::Checkpointer;
pub use fault::WriteFault;
pub use round::Round;
