//! Whether two replies are the same.

use chew_plain::{Hit, Reply};

/// What a hit tells.
fn told(hit: &Hit) -> (u8, u8, &str, u32, bool) {
    (hit.start, hit.len, hit.phrase.text(), hit.freq, hit.hidden)
}

/// Whether a pair was learnt, with this frequency and time.
fn is_learned(reply: &Reply, wanted: (u32, u64)) -> bool {
    match reply {
        Reply::Learned { freq, time } => (*freq, *time) == wanted,
        _ => false,
    }
}

/// Whether it tells the number of the snapshot that waits.
fn is_frozen(reply: &Reply, wanted: u64) -> bool {
    match reply {
        Reply::Frozen(number) => *number == wanted,
        _ => false,
    }
}

/// Whether hits are the same, in the same order.
fn are_same_hits(hits: &[Hit], others: &[Hit]) -> bool {
    if hits.len() != others.len() {
        return false;
    }
    for (hit, other) in hits.iter().zip(others.iter()) {
        if told(hit) != told(other) {
            return false;
        }
    }
    true
}

/// Whether a look found these hits.
fn has_hits(reply: &Reply, wanted: &[Hit]) -> bool {
    match reply {
        Reply::Rows(hits) => are_same_hits(hits.list(), wanted),
        _ => false,
    }
}

/// Whether two replies are the same.
pub(crate) fn are_same(reply: &Reply, other: &Reply) -> bool {
    match other {
        Reply::Rows(hits) => has_hits(reply, hits.list()),
        Reply::Learned { freq, time } => is_learned(reply, (*freq, *time)),
        Reply::Full => matches!(reply, Reply::Full),
        Reply::Forgot => matches!(reply, Reply::Forgot),
        Reply::NotThere => matches!(reply, Reply::NotThere),
        Reply::Hid => matches!(reply, Reply::Hid),
        Reply::Frozen(number) => is_frozen(reply, *number),
        Reply::Installed => matches!(reply, Reply::Installed),
    }
}

/// Whether the replies are the same, in the same order.
pub(crate) fn are_all_same(replies: &[Reply], others: &[Reply]) -> bool {
    if replies.len() != others.len() {
        return false;
    }
    for (reply, other) in replies.iter().zip(others.iter()) {
        if !are_same(reply, other) {
            return false;
        }
    }
    true
}
