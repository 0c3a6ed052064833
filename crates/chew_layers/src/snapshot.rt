use chew_buffer::Buffer;
use chew_trie_read::Trie;
use std::sync::Arc;

/// What a new base is made of, while the dictionary goes on.
#[derive(Drop)]
pub struct Snapshot {
    /// The base then.
    pub base: Arc<Trie>,
    /// The marks that wait.
    pub frozen: Arc<Buffer>,
    /// How many entries the marks and the base have, of those since the start.
    pub upto: u64,
    /// The life of the dictionary after these entries.
    pub life: u64,
}
