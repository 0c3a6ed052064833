use std::sync::Wait;

/// Where activities can be held at their places, so that a test fixes the order in which they come there. A gate holds no
/// content: whoever reaches a place waits there for a while or doesn't, and finds all as it was.
pub trait Gate: Sync {
    /// The activity with this number has come to this place. It may have to wait.
    fn reach<R: Wait>(&self, rt: &R, who: u32, at: u32);
}

/// A gate at which nobody ever waits.
#[derive(Clone, Copy, Debug, Default)]
pub struct FreeGate;

impl Gate for FreeGate {
    fn reach<R: Wait>(&self, _rt: &R, _who: u32, _at: u32) {}
}
