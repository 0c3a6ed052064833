//! Laws of what a context handles.

ghost use Rattle.std.specs.Prelude.{◌≡◌, ◌≤◌, ℕ, List, length};
ghost use Rattle.chew_spec_dictionary.specs.History.{Entry, calls_of};
ghost use Rattle.chew_spec_cell.specs.Sight.{HasSeen};
ghost use Rattle.chew_spec_text.specs.KeyStroke.{KeyStroke};
ghost use Rattle.chew_spec_text.specs.Line.{Line};
ghost use Rattle.chew_spec_session.specs.Context.{Basis, Handles, talk_in};

/// What a context handled by what it has seen, it handled by the whole history, to which others add. It handled no more keys
/// than it has; and where it handled all, it made the calls of its talk and no others.
pub fn what_contexts_handle()
    ensures later { (basis : Basis) (who : ℕ) (keys : List KeyStroke) (count : ℕ) (lines : List Line) (seen journal : List Entry)
        → HasSeen who seen journal → Handles basis seen who keys count lines → Handles basis journal who keys count lines }
    ensures within { (basis : Basis) (who : ℕ) (keys : List KeyStroke) (count : ℕ) (lines : List Line) (journal : List Entry)
        → Handles basis journal who keys count lines → count ≤ length keys }
    ensures whole { (basis : Basis) (who : ℕ) (keys : List KeyStroke) (lines : List Line) (journal : List Entry)
        → Handles basis journal who keys (length keys) lines → calls_of journal who ≡ (talk_in basis journal who keys).calls }
{}
