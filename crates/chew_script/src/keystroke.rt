/// A key of a script, and what it is for.
#[derive(Clone, Copy, Debug, PartialEq, Eq)]
pub enum KeyStroke {
    /// A printable ASCII byte, from the space to `~`.
    Char(u8),
    /// Commits all text.
    Enter,
    /// Takes away what stands before the cursor.
    Backspace,
    /// Takes away what stands at the cursor.
    Delete,
    /// Moves the cursor back by one cell.
    Left,
    /// Moves the cursor on by one cell.
    Right,
    /// Moves the cursor before the first cell.
    Home,
    /// Moves the cursor behind the last cell.
    End,
    /// Closes the window of candidates.
    Up,
    /// Shows the candidates.
    Down,
    /// Goes to the page of candidates before.
    PageUp,
    /// Goes to the next page of candidates.
    PageDown,
    /// Sets or clears a break.
    Tab,
    /// Clears what the layout holds, or closes the window of candidates.
    Esc,
    /// Adds the phrase of this many cells, 2 to 9, to the user's dictionary.
    Add(u8),
    /// Takes the phrase of this many cells, 1 to 9, from it.
    Forget(u8),
    /// Hides the phrase of this many cells, 2 to 9, whether the user or the system has it.
    Hide(u8),
}
