use chew_script::KeyStroke;

/// A context: its number, from 1 on, and the keys that it types.
#[derive(Drop)]
pub struct Actor {
    /// Its number, which its pass has too.
    pub who: u32,
    /// Its keys, in their order.
    pub keys: Vec<KeyStroke>,
}
