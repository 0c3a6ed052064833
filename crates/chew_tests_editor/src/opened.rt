//! The window of candidates of a second reading.

use crate::part::Part;
use std::alloc::Global;
use std::test::Fail;

/// Lists of candidates for the cells from one place on, the longest first, and what is seen of them.
#[derive(Drop)]
pub(crate) struct Opened {
    pub(crate) lists: Vec<Vec<Part>>,
    /// Which list is seen, and which page of it, counted from 0.
    pub(crate) list: usize,
    pub(crate) page: usize,
    pub(crate) per_page: usize,
}

impl Opened {
    /// The list that is seen.
    fn current(&self) -> &[Part] {
        match self.lists.get(self.list) {
            Some(list) => list.as_slice(),
            None => &[],
        }
    }

    /// How many pages it has.
    fn pages(&self) -> usize {
        let mut pages: usize = 0;
        let mut room: usize = 0;
        for _candidate in self.current() {
            if room == 0 {
                pages = pages.saturating_add(1);
                room = self.per_page;
            }
            room = room.saturating_sub(1);
        }
        pages
    }

    /// The next shorter list, from the last the longest, at its first page.
    pub(crate) fn shorter(&mut self) {
        let next = self.list.saturating_add(1);
        self.list = if next < self.lists.len() { next } else { 0 };
        self.page = 0;
    }

    /// The next page, from the last the first.
    pub(crate) fn next_page(&mut self) {
        let next = self.page.saturating_add(1);
        self.page = if next < self.pages() { next } else { 0 };
    }

    /// The page before, from the first the last.
    pub(crate) fn page_before(&mut self) {
        let last = self.pages().saturating_sub(1);
        self.page = if self.page == 0 {
            last
        } else {
            self.page.saturating_sub(1)
        };
    }

    /// The candidate of the page at this place, counted from 0.
    pub(crate) fn candidate(&self, at: usize) -> Option<Part> {
        if at >= self.per_page {
            return None;
        }
        let before = self.page.saturating_mul(self.per_page);
        let part = self.current().iter().skip(before).nth(at)?;
        Some(part.copy())
    }

    /// The page, the pages, and the candidates behind the keys that pick them.
    pub(crate) fn text(&self, alloc: Global, selection: &[u8]) -> Result<String, Fail> {
        let page = self.page.saturating_add(1);
        let pages = self.pages();
        let mut text = format!(in alloc; "{page}/{pages}")?;
        for (at, key) in selection.iter().enumerate() {
            if let Some(part) = self.candidate(at) {
                text.push(' ')?;
                text.push(char::from(*key))?;
                text.push_str(part.phrase.text())?;
            }
        }
        Ok(text)
    }
}
