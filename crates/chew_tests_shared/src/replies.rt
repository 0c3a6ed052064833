//! What replies tell. One that was refused memory tells none of it.

use chew_plain::{Hit, Reply};
use chew_syllable::NoMemory;

/// What a hit tells.
fn told(hit: &Hit) -> (u8, u8, &str, u32, bool) {
    (hit.start, hit.len, hit.phrase.text(), hit.freq, hit.hidden)
}

/// Whether a look found this alone: the interval's start and length, the phrase, its frequency and whether it is hidden.
pub(crate) fn is_one_hit(
    reply: &Result<Reply, NoMemory>,
    wanted: (u8, u8, &str, u32, bool),
) -> bool {
    match reply {
        Ok(Reply::Rows(hits)) => match hits.list() {
            [hit] => told(hit) == wanted,
            _ => false,
        },
        _ => false,
    }
}

/// Whether a look found nothing.
pub(crate) fn is_nothing(reply: &Result<Reply, NoMemory>) -> bool {
    match reply {
        Ok(Reply::Rows(hits)) => hits.list().is_empty(),
        _ => false,
    }
}

/// Whether a pair was learnt, with this frequency and time.
pub(crate) fn is_learned(reply: &Result<Reply, NoMemory>, wanted: (u32, u64)) -> bool {
    match reply {
        Ok(Reply::Learned { freq, time }) => (*freq, *time) == wanted,
        _ => false,
    }
}

/// What a call made, where it tells no more.
#[derive(Clone, Copy, Drop)]
pub(crate) enum Outcome {
    /// The pair was forgotten.
    Forgot,
    /// It was hidden.
    Hid,
    /// It wasn't there, or was hidden already.
    NotThere,
    /// There is no room for it.
    Full,
}

/// Whether a call had this outcome.
pub(crate) fn is_outcome(reply: &Result<Reply, NoMemory>, wanted: Outcome) -> bool {
    match wanted {
        Outcome::Forgot => matches!(reply, Ok(Reply::Forgot)),
        Outcome::Hid => matches!(reply, Ok(Reply::Hid)),
        Outcome::NotThere => matches!(reply, Ok(Reply::NotThere)),
        Outcome::Full => matches!(reply, Ok(Reply::Full)),
    }
}
