use arrayvec::ArrayVec;
use chew_checkpoint::Round;
use chew_plain::Entry;
use chew_script::CONTEXTS_LIMIT;
use chew_session::SESSION_ROUNDS_LIMIT;

/// How a run ended.
#[derive(Drop)]
pub struct Done {
    /// The exit status: 0, or 2 to 11.
    pub status: u8,
    /// The calls of the dictionary that were made, in the order of their turns. Empty where the run was refused.
    pub journal: Vec<Entry>,
    /// For each context, in order, how many of its keys were handled. Empty where the script has no context,
    /// or where the run was refused before its first key.
    pub handled: ArrayVec<u32, CONTEXTS_LIMIT>,
    /// What each round answered, the worker's first.
    pub rounds: ArrayVec<Round, SESSION_ROUNDS_LIMIT>,
    /// The place of the first of the last rounds, which follow the contexts.
    pub last_from: u32,
}
