use thiserror::Error;

/// Why a line of a script can't be taken, in the order in which it is told.
#[derive(Clone, Copy, Debug, PartialEq, Eq, Error)]
pub enum ScriptCause {
    /// The text is longer than 1 MiB.
    #[error("the text is longer than 1 MiB")]
    Size,
    /// A byte isn't printable ASCII, and the line is no comment.
    #[error("a byte isn't printable ASCII")]
    Byte,
    /// It is neither empty, nor a comment, nor `round`, nor digits, `:` and keys.
    #[error("the line has none of the forms of a line")]
    Form,
    /// The number isn't 1 to 16, or begins with 0.
    #[error("the number of the context isn't 1 to 16")]
    Context,
    /// A `<` begins no name of a key.
    #[error("a `<` begins no name of a key")]
    Key,
    /// The 65,537th key stands here.
    #[error("there are more than 65,536 keys")]
    Keys,
    /// The 65th round stands here.
    #[error("there are more than 64 rounds")]
    Rounds,
}

/// Why a script isn't read.
#[derive(Clone, Copy, Debug, PartialEq, Eq, Error)]
pub enum ScriptFault {
    /// The first line that can't be taken, counted from 1, or 0 for the text as a whole.
    #[error("line {line}: {cause}")]
    Bad { line: u32, cause: ScriptCause },
    /// Memory was wanting.
    #[error("memory was wanting")]
    NoMemory,
}

/// Why a line isn't taken.
#[derive(Clone, Copy)]
pub(crate) enum LineFault {
    Bad(ScriptCause),
    NoMemory,
}
