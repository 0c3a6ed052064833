//! What `make` does: one editor types the script that is generated for a number, and what came of it is told.
#![tactic(auto)]

mod asking;
mod make;
mod script;
mod summary;
mod telling;
mod typing;
mod typist;

pub use make::make_call;
