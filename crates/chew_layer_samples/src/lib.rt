//! Calls of users, small maps, and layers with the snapshot that waits, which the tests of layers share.
#![tactic(auto)]

mod calls;
mod in_layers;
mod maps;

pub use calls::{forget, hide, learn, look};
pub use in_layers::InLayers;
pub use maps::{empty_map, five_map, map_of};
