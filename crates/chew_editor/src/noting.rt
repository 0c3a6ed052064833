ghost use Rattle.std.specs.Prelude.{◌≡◌, map};
ghost use Rattle.std.specs.List.{list_any};
ghost use Rattle.chew_spec_editor.specs.Finish.{is_full_reply, is_not_there, note_after};
ghost use Rattle.chew_plain.specs.Call.{reply_of};
ghost use Rattle.chew_script.specs.Notes.{note_of};

use chew_plain::Reply;
use chew_script::Note;

/// The note of a key by the replies to what it changes: something found the dictionary full, else something was not
/// there, and else what the key says.
pub(crate) fn note_after(note: Note, changed: &[Reply]) -> Note
    ensures { note_of result ≡ note_after (note_of note) (map reply_of changed.now) }
{
    if has_full(changed) {
        return Note::Full;
    }
    if has_not_there(changed) {
        return Note::Missing;
    }
    note
}

/// Whether something that was to be learnt or hidden found the dictionary full.
fn has_full(replies: &[Reply]) -> bool
    ensures { result ≡ list_any is_full_reply (map reply_of replies.now) }
{
    match replies {
        [reply, others @ ..] => is_full(reply) || has_full(others),
        [] => false,
    }
}

/// Whether something that was to be forgotten or hidden was not there.
fn has_not_there(replies: &[Reply]) -> bool
    ensures { result ≡ list_any is_not_there (map reply_of replies.now) }
{
    match replies {
        [reply, others @ ..] => is_not_there(reply) || has_not_there(others),
        [] => false,
    }
}

/// Whether it is the reply of a full dictionary.
fn is_full(reply: &Reply) -> bool
    ensures { result ≡ is_full_reply (reply_of reply.now) }
{
    match reply {
        Reply::Full => true,
        _ => false,
    }
}

/// Whether it says that there was nothing.
fn is_not_there(reply: &Reply) -> bool
    ensures { result ≡ is_not_there (reply_of reply.now) }
{
    match reply {
        Reply::NotThere => true,
        _ => false,
    }
}
