use crate::asked::Asked;
use crate::state::State;
use chew_script::Line;

/// What a key did.
#[derive(Drop)]
pub(crate) enum Outcome {
    /// It changed the state at once.
    Done(State, Line),
    /// It asks calls of the dictionary first.
    Ask(Asked),
}
