//! A session: contexts that type at once over one shared dictionary, while its keeper saves what they learn.
#![tactic(auto)]

mod actor;
mod actors;
mod asking;
mod beside;
mod context;
mod context_end;
mod crew;
mod each;
mod ended;
mod keying;
mod last_rounds;
mod laws;
mod meeting;
mod worker;

pub use actor::Actor;
pub use actors::run_actors;
pub use context_end::ContextEnd;
pub use ended::Ended;
pub use worker::SESSION_ROUNDS_LIMIT;
