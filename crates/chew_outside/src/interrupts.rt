/// How often a call is made that a signal interrupts before it moves a byte.
pub(crate) const TRIES: u32 = u32::MAX;
