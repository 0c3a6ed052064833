ghost use Rattle.std.specs.Prelude.{◌≡◌};
ghost use Rattle.chew_spec_text.specs.Line.{note_text};
ghost use Rattle.chew_script.specs.Notes.{note_of};

/// What is told of a key besides.
#[derive(Clone, Copy, Debug, PartialEq, Eq)]
pub enum Note {
    /// Nothing.
    Quiet,
    /// The key could not do what it says.
    Bell,
    /// The user's dictionary is full: what the key would have learnt or hidden was not.
    Full,
    /// The key added a phrase.
    Added,
    /// The key took a phrase away.
    Forgot,
    /// The key hid a phrase.
    Hidden,
    /// There was no phrase to take away, or it was hidden.
    Missing,
}

/// The text of a note.
pub(crate) fn note_text(note: &Note) -> &[u8]
    ensures { result.now ≡ note_text (note_of note.now) }
{
    match note {
        Note::Quiet => b"",
        Note::Bell => b"bell",
        Note::Full => b"full",
        Note::Added => b"added",
        Note::Forgot => b"forgot",
        Note::Hidden => b"hidden",
        Note::Missing => b"none",
    }
}
