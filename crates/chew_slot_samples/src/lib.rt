//! Known slots, maps and disks, and a checkpoint by its three steps, which the tests of slots share.
#![tactic(auto)]

mod disks;
mod known;
mod maps;
mod saving;

pub use disks::{bytes_of, disk_of, failing, holds};
pub use known::{SHUT_SLOT, digest_slot, patched, plain_slot};
pub use maps::{Learnt, is_found};
pub use saving::{SaveFault, recovers_to, refusal, save, save_map};
