use crate::call::Call;

/// A call of a journal, and who made it.
#[derive(Debug, Drop)]
pub struct Entry {
    /// The number of who made the call; 0 is the keeper.
    pub who: u32,
    /// What was asked for.
    pub call: Call,
}
