//! The user's dictionary as three layers, a base, marks that wait for a new base, and fresh marks, which answer each call as the
//! plain map does.
#![tactic(auto)]

pub mod alike;
mod apply;
mod change;
mod forget;
mod held;
mod hide;
mod keeper;
mod layer;
mod layers;
mod learn;
mod need;
mod seen;
mod snapshot;

pub use keeper::KEEPER;
pub use layers::Layers;
pub use need::Need;
pub use snapshot::Snapshot;
