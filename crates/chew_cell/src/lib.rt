//! A value that threads enter one after another, in the order in which they drew their tickets, and that keeps one history
//! of all that they did.
#![tactic(auto)]

mod cell;
mod chronicle;
mod pass;
mod rule;
mod turn;
mod turns;
mod turnstile;
mod view;

pub use cell::Cell;
pub use chronicle::Chronicle;
pub use pass::Pass;
pub use turn::{Held, Turn};
