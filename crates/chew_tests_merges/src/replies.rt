//! What replies tell.

use chew_plain::Reply;

/// Whether a look found nothing.
pub(crate) fn is_nothing(reply: &Reply) -> bool {
    match reply {
        Reply::Rows(hits) => hits.list().is_empty(),
        _ => false,
    }
}

/// Whether a look found this alone, which is not hidden: a phrase of so many syllables, with its frequency.
pub(crate) fn is_one_hit(reply: &Reply, len: usize, text: &str, freq: u32) -> bool {
    match reply {
        Reply::Rows(hits) => match hits.list() {
            [hit] => {
                (hit.start, hit.len as usize, hit.freq) == (0, len, freq)
                    && hit.phrase.text() == text
                    && !hit.hidden
            }
            _ => false,
        },
        _ => false,
    }
}

/// Whether a pair was learnt, with this frequency and time.
pub(crate) fn is_learned(reply: &Reply, wanted: (u32, u64)) -> bool {
    match reply {
        Reply::Learned { freq, time } => (*freq, *time) == wanted,
        _ => false,
    }
}

/// Whether a pair was not added, because the dictionary holds as many as it may.
pub(crate) fn is_full(reply: &Reply) -> bool {
    matches!(reply, Reply::Full)
}

/// Whether a pair was forgotten.
pub(crate) fn is_forgot(reply: &Reply) -> bool {
    matches!(reply, Reply::Forgot)
}

/// Whether a pair was not there.
pub(crate) fn is_not_there(reply: &Reply) -> bool {
    matches!(reply, Reply::NotThere)
}
