//! What replies tell, and whether two are the same.

use chew_plain::{Hit, Reply};

/// What a reply to a call of a user tells.
#[derive(Clone, Copy, Debug, PartialEq, Eq)]
pub(crate) enum Told {
    /// A look found nothing.
    Nothing,
    /// A look found rows, none of them hidden.
    Shown,
    /// A look found rows, and hidden ones among them.
    Hidden,
    Learned,
    Full,
    Forgot,
    NotThere,
    Hid,
}

/// What a look's hits tell.
fn told_by_hits(hits: &[Hit]) -> Told {
    if hits.is_empty() {
        return Told::Nothing;
    }
    if hits.iter().any(|hit| hit.hidden) {
        Told::Hidden
    } else {
        Told::Shown
    }
}

/// What a reply tells, where it is one to a call of a user.
pub(crate) fn told_by(reply: &Reply) -> Option<Told> {
    match reply {
        Reply::Rows(hits) => Some(told_by_hits(hits.list())),
        Reply::Learned { .. } => Some(Told::Learned),
        Reply::Full => Some(Told::Full),
        Reply::Forgot => Some(Told::Forgot),
        Reply::NotThere => Some(Told::NotThere),
        Reply::Hid => Some(Told::Hid),
        _ => None,
    }
}

/// Whether two hits are the same.
fn is_same_hit(hit: &Hit, other: &Hit) -> bool {
    (hit.start, hit.len, hit.freq, hit.hidden) == (other.start, other.len, other.freq, other.hidden)
        && hit.phrase.text() == other.phrase.text()
}

/// Whether hits are the same, in the same order.
fn are_same_hits(hits: &[Hit], others: &[Hit]) -> bool {
    if hits.len() != others.len() {
        return false;
    }
    for place in 0..hits.len() {
        if !is_same_hit(&hits[place], &others[place]) {
            return false;
        }
    }
    true
}

/// Whether a reply is a look's that found this.
fn has_hits(reply: &Reply, wanted: &[Hit]) -> bool {
    match reply {
        Reply::Rows(hits) => are_same_hits(hits.list(), wanted),
        _ => false,
    }
}

/// Whether a pair was learnt, with this frequency and time.
fn is_learned(reply: &Reply, wanted: (u32, u64)) -> bool {
    match reply {
        Reply::Learned { freq, time } => (*freq, *time) == wanted,
        _ => false,
    }
}

/// Whether two replies to a call of a user are the same.
pub(crate) fn are_same(reply: &Reply, other: &Reply) -> bool {
    match reply {
        Reply::Rows(hits) => has_hits(other, hits.list()),
        Reply::Learned { freq, time } => is_learned(other, (*freq, *time)),
        Reply::Full => matches!(other, Reply::Full),
        Reply::Forgot => matches!(other, Reply::Forgot),
        Reply::NotThere => matches!(other, Reply::NotThere),
        Reply::Hid => matches!(other, Reply::Hid),
        _ => false,
    }
}
