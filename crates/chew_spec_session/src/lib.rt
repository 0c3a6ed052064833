//! Definitions of a session: what contexts that type at once do, the history of their calls, and the rounds that save it.
#![tactic(auto)]

mod laws;
