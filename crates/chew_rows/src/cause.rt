use thiserror::Error;

/// Why a line gives no row, in the order in which it is told; `Size` is told of the text as a whole.
#[derive(Clone, Copy, Debug, PartialEq, Eq, Error)]
pub enum RowCause {
    /// The text is longer than 64 MiB.
    #[error("the text is longer than 64 MiB")]
    Size,
    /// The first field is no phrase of 1 to 11 characters.
    #[error("the first field is no phrase of 1 to 11 characters")]
    Phrase,
    /// The second field is missing, has a byte that isn't a digit, or is above 99,999,999.
    #[error("the second field is no frequency of at most 99,999,999")]
    Frequency,
    /// A field behind the frequency is no syllable.
    #[error("a field behind the frequency is no syllable")]
    Syllable,
    /// There are not as many syllables as the phrase has characters.
    #[error("there are not as many syllables as the phrase has characters")]
    Lengths,
    /// The phrase stands under these syllables in an earlier line.
    #[error("the phrase stands under these syllables in an earlier line")]
    Twice,
    /// The 250,001st row stands here.
    #[error("there are more than 250,000 rows")]
    Rows,
}

/// Why a text gives no rows.
#[derive(Clone, Copy, Debug, PartialEq, Eq, Error)]
pub enum RowsFault {
    /// The first line that gives no row, counted from 1, and why; the line is 0 where the text is too long.
    #[error("line {line}: {cause}")]
    Bad { line: u32, cause: RowCause },
    /// Memory was wanting.
    #[error("memory was wanting")]
    NoMemory,
}
