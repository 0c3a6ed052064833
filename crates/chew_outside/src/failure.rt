/// The outside failed: a call was not done, and its object counted a fault.
#[derive(Debug, Clone, Copy, PartialEq, Eq)]
pub struct Failed;
