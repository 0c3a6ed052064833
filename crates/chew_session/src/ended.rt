use crate::context_end::ContextEnd;
use crate::worker::SESSION_ROUNDS_LIMIT;
use arrayvec::ArrayVec;
use chew_checkpoint::Round;
use chew_plain::Entry;
use chew_script::{CONTEXTS_LIMIT, Text};
use std::alloc::Global;
use std::default::MadeWith;

/// How a session ended.
#[derive(Drop)]
pub struct Ended {
    /// All calls that were made, in the order of their turns.
    pub journal: Vec<Entry>,
    /// How each context ended, in the order of their numbers.
    pub contexts: ArrayVec<ContextEnd, CONTEXTS_LIMIT, Global>,
    /// What each round answered.
    pub rounds: ArrayVec<Round, SESSION_ROUNDS_LIMIT>,
    /// The place of the first of the last rounds, those that were made once the contexts had ended.
    pub last_from: u32,
    /// Whether memory was wanting for a key or a last round.
    pub memory: bool,
}

/// The contexts' ends, in the order of their numbers.
pub(crate) type ContextEnds = ArrayVec<ContextEnd, CONTEXTS_LIMIT, Global>;

/// The end of a context that handled no key, since some end has to fill unused places.
impl MadeWith<Global> for ContextEnd {
    fn made_with(alloc: Global) -> ContextEnd {
        ContextEnd {
            who: 0,
            handled: 0,
            bytes: Text::new(alloc),
        }
    }
}
