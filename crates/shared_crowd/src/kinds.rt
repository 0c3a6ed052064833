//! Which kinds of replies were told.

use crate::heard::Heard;
use chew_plain::Reply;

/// The kinds of replies that were told so far.
#[derive(Clone, Copy, Default, Drop)]
struct Kinds {
    rows: bool,
    learned: bool,
    full: bool,
    forgot: bool,
    not_there: bool,
    hid: bool,
    frozen: bool,
    installed: bool,
}

impl Kinds {
    /// Adds the kind of a reply. A look that found nothing tells little, and is none.
    fn note(&mut self, reply: &Reply) {
        match reply {
            Reply::Rows(hits) => self.rows = self.rows || !hits.list().is_empty(),
            Reply::Learned { .. } => self.learned = true,
            Reply::Full => self.full = true,
            Reply::Forgot => self.forgot = true,
            Reply::NotThere => self.not_there = true,
            Reply::Hid => self.hid = true,
            Reply::Frozen(_) => self.frozen = true,
            Reply::Installed => self.installed = true,
        }
    }

    /// Whether none is missing.
    fn are_all(self) -> bool {
        let by_looks_and_learns = self.rows && self.learned && self.full;
        let by_forgets_and_hides = self.forgot && self.not_there && self.hid;
        by_looks_and_learns && by_forgets_and_hides && self.frozen && self.installed
    }
}

/// Whether each kind of reply was told to somebody, so that each was compared.
pub(crate) fn has_each_kind(told: &[Heard]) -> bool {
    let mut kinds = Kinds::default();
    for heard in told {
        for reply in heard.replies.as_slice() {
            kinds.note(reply);
        }
    }
    kinds.are_all()
}
