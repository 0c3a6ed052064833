//! Two slots of a disk, of which each keeps a checkpoint of the user's map: how the map is found again, what is known of
//! the slots between two checkpoints, and the three steps by which one is written, so that a crash at any moment leaves
//! the old one or the new.
#![tactic(auto)]

mod body;
mod damage;
mod fault;
mod fields;
mod keep;
mod recovery;
mod slot_read;
mod steps;
mod stored;

pub use body::body_of;
pub use fault::SlotFault;
pub use keep::Keep;
pub use recovery::{Found, recover};
pub use slot_read::LENGTH_LIMIT;
pub use steps::StepFault;
