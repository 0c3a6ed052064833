/// What layers need, so that their base has all that they hold.
#[derive(Clone, Copy, Debug, PartialEq, Eq)]
pub enum Need {
    /// A layer waits for its install.
    Waiting,
    /// No layer waits, and there are fresh marks.
    Fresh,
    /// The base has all.
    Nothing,
}
