//! What each key does by the second reading. Each answers the note.

use crate::opened::Opened;
use crate::part::{Cell, stretches};
use crate::second::Second;
use chew_plain::Reply;
use chew_script::KeyStroke;
use chew_script::KeyStroke::{
    Add, Backspace, Char, Delete, Down, End, Enter, Esc, Forget, Hide, Home, Left, PageDown,
    PageUp, Right, Tab, Up,
};
use chew_syllable::{Step, Syllable};
use std::alloc::Global;
use std::test::Fail;

/// The key did what it says.
const QUIET: &str = "";

/// The key could not.
const BELL: &str = "bell";

impl Second {
    /// The line of a key.
    pub(crate) fn press(&mut self, alloc: Global, key: KeyStroke) -> Result<String, Fail> {
        self.commit = String::new(alloc);
        let note = match self.opened.take() {
            Some(opened) => self.in_window(alloc, opened, key)?,
            None => self.without_window(alloc, key)?,
        };
        self.output_line(alloc, note)
    }

    fn in_window(
        &mut self,
        alloc: Global,
        mut opened: Opened,
        key: KeyStroke,
    ) -> Result<&'static str, Fail> {
        match key {
            Char(byte) => return self.select(alloc, opened, byte),
            Up | Esc => return Ok(QUIET),
            Down => opened.shorter(),
            PageDown | Right => opened.next_page(),
            PageUp | Left => opened.page_before(),
            _ => {
                self.opened = Some(opened);
                return Ok(BELL);
            }
        }
        self.opened = Some(opened);
        Ok(QUIET)
    }

    fn select(&mut self, alloc: Global, opened: Opened, byte: u8) -> Result<&'static str, Fail> {
        let mut picked = None;
        for (at, key) in self.rules.selection.iter().enumerate() {
            if *key == byte {
                picked = opened.candidate(at);
            }
        }
        match picked {
            Some(choice) => {
                self.choose(alloc, choice)?;
                self.look(alloc)?;
                Ok(QUIET)
            }
            None => {
                self.opened = Some(opened);
                Ok(BELL)
            }
        }
    }

    fn without_window(&mut self, alloc: Global, key: KeyStroke) -> Result<&'static str, Fail> {
        match key {
            Char(byte) => self.character(alloc, byte),
            Backspace => self.backspace(alloc),
            Esc => self.escape(alloc),
            _ => {
                if self.layout.holds() {
                    return Ok(BELL);
                }
                self.free(alloc, key)
            }
        }
    }

    fn free(&mut self, alloc: Global, key: KeyStroke) -> Result<&'static str, Fail> {
        match key {
            Enter => self.enter(alloc),
            Delete => self.delete_here(alloc),
            Left => Ok(self.left()),
            Right => Ok(self.right()),
            Home => {
                self.cursor = 0;
                Ok(QUIET)
            }
            End => {
                self.cursor = self.cells.len();
                Ok(QUIET)
            }
            Tab => self.tab(alloc),
            Add(count) => self.add(alloc, usize::from(count)),
            Forget(count) => self.forget(alloc, usize::from(count)),
            Hide(count) => self.hide(alloc, usize::from(count)),
            Down => self.down(alloc),
            _ => Ok(BELL),
        }
    }

    fn character(&mut self, alloc: Global, byte: u8) -> Result<&'static str, Fail> {
        match self.layout.feed(byte) {
            Step::Kept | Step::Erased => Ok(QUIET),
            Step::Refused => Ok(BELL),
            Step::Whole(syllable) => {
                if self.has_single(syllable) {
                    self.take(alloc, Cell::Sound(syllable))
                } else {
                    Ok(BELL)
                }
            }
            Step::NotMine => {
                if self.layout.holds() {
                    Ok(BELL)
                } else {
                    self.take(alloc, Cell::Symbol(byte))
                }
            }
        }
    }

    fn has_single(&self, syllable: Syllable) -> bool {
        for row in &self.system {
            if row.key.list() == [syllable].as_slice() {
                return true;
            }
        }
        false
    }

    /// A cell at the cursor; a full buffer commits its first part, or its first symbol, before.
    fn take(&mut self, alloc: Global, cell: Cell) -> Result<&'static str, Fail> {
        let mut note = QUIET;
        if self.cells.len() >= self.rules.buffer {
            let mut count = 1;
            if self.is_sound_at(0) {
                if let Some(part) = self.shown.first() {
                    count = part.len();
                }
            }
            self.commit = self.text(alloc, 0, count)?;
            if self.rules.learn && self.is_sound_at(0) && self.learn(alloc, 0, count)? {
                note = "full";
            }
            self.release(alloc, count)?;
        }
        self.insert(alloc, cell)?;
        self.look(alloc)?;
        Ok(note)
    }

    fn backspace(&mut self, alloc: Global) -> Result<&'static str, Fail> {
        if self.layout.holds() {
            self.layout.feed(8);
            return Ok(QUIET);
        }
        if self.cursor == 0 {
            return Ok(BELL);
        }
        self.cursor = self.cursor.saturating_sub(1);
        self.delete(alloc, self.cursor)?;
        self.look(alloc)?;
        Ok(QUIET)
    }

    fn escape(&mut self, alloc: Global) -> Result<&'static str, Fail> {
        if self.layout.holds() {
            self.layout.clear();
            return Ok(QUIET);
        }
        if !self.rules.escape_clears || self.cells.is_empty() {
            return Ok(BELL);
        }
        self.empty(alloc);
        Ok(QUIET)
    }

    fn enter(&mut self, alloc: Global) -> Result<&'static str, Fail> {
        if self.cells.is_empty() {
            return Ok(BELL);
        }
        let commit = self.text(alloc, 0, self.cells.len())?;
        let full = self.rules.learn && self.learn_shown(alloc)?;
        self.empty(alloc);
        self.commit = commit;
        Ok(if full { "full" } else { QUIET })
    }

    /// Learns longer parts by themselves, and single ones together where they stand together and no break parts them.
    fn learn_shown(&mut self, alloc: Global) -> Result<bool, Fail> {
        let mut full = false;
        let mut from: usize = 0;
        let mut to: usize = 0;
        for part in &self.parts(alloc)? {
            let goes_on = part.len() == 1 && part.start == to && !self.breaks.contains(&to);
            if !goes_on {
                full = self.learn(alloc, from, to)? || full;
                from = part.start;
            }
            to = part.end();
            if part.len() > 1 {
                full = self.learn(alloc, from, to)? || full;
                from = to;
            }
        }
        Ok(self.learn(alloc, from, to)? || full)
    }

    fn delete_here(&mut self, alloc: Global) -> Result<&'static str, Fail> {
        if self.cursor >= self.cells.len() {
            return Ok(BELL);
        }
        self.delete(alloc, self.cursor)?;
        self.look(alloc)?;
        Ok(QUIET)
    }

    fn left(&mut self) -> &'static str {
        if self.cursor == 0 {
            return BELL;
        }
        self.cursor = self.cursor.saturating_sub(1);
        QUIET
    }

    fn right(&mut self) -> &'static str {
        if self.cursor >= self.cells.len() {
            return BELL;
        }
        self.cursor = self.cursor.saturating_add(1);
        QUIET
    }

    fn tab(&mut self, alloc: Global) -> Result<&'static str, Fail> {
        if self.cursor == 0 {
            return Ok(BELL);
        }
        let before = self.cursor.saturating_sub(1);
        if !self.is_sound_at(before) || !self.is_sound_at(self.cursor) {
            return Ok(BELL);
        }
        self.toggle(alloc)?;
        self.look(alloc)?;
        Ok(QUIET)
    }

    /// Whether so many cells from the cursor on are syllables.
    fn are_sounds(&self, count: usize) -> bool {
        for at in 0..count {
            if !self.is_sound_at(self.cursor.saturating_add(at)) {
                return false;
            }
        }
        true
    }

    fn add(&mut self, alloc: Global, count: usize) -> Result<&'static str, Fail> {
        if !self.are_sounds(count) {
            return Ok(BELL);
        }
        let full = self.learn(alloc, self.cursor, self.cursor.saturating_add(count))?;
        self.look(alloc)?;
        Ok(if full { "full" } else { "added" })
    }

    fn forget(&mut self, alloc: Global, count: usize) -> Result<&'static str, Fail> {
        if !self.are_sounds(count) {
            return Ok(BELL);
        }
        let end = self.cursor.saturating_add(count);
        let key = self.key(alloc, self.cursor, end)?;
        let text = self.text(alloc, self.cursor, end)?;
        let note = match self.book.forget(&key, &text)? {
            Reply::Forgot => "forgot",
            _ => "none",
        };
        self.look(alloc)?;
        Ok(note)
    }

    fn hide(&mut self, alloc: Global, count: usize) -> Result<&'static str, Fail> {
        if !self.are_sounds(count) {
            return Ok(BELL);
        }
        let end = self.cursor.saturating_add(count);
        let key = self.key(alloc, self.cursor, end)?;
        let text = self.text(alloc, self.cursor, end)?;
        let note = match self.book.hide(&key, &text)? {
            Reply::Hid => "hidden",
            Reply::Full => "full",
            _ => "none",
        };
        self.look(alloc)?;
        Ok(note)
    }

    /// Opens the candidates at the cursor, or at the last cell.
    fn down(&mut self, alloc: Global) -> Result<&'static str, Fail> {
        let place = if self.cursor < self.cells.len() {
            self.cursor
        } else {
            self.cursor.saturating_sub(1)
        };
        for stretch in &stretches(alloc, &self.cells)? {
            let end = stretch.start.saturating_add(stretch.codes.len());
            if stretch.start <= place && place < end {
                let phrasing = self.phrasing(alloc, stretch)?;
                let best = phrasing.best(alloc, &self.system)?;
                self.renew(alloc, stretch, &best)?;
                let from = place.saturating_sub(stretch.start);
                let mut lists = Vec::new(alloc);
                for less in 0..11usize {
                    let to = from.saturating_add(11 - less);
                    if to <= stretch.codes.len() && !phrasing.is_broken(from, to) {
                        let mut list = Vec::new(alloc);
                        for part in &phrasing.combined(alloc, &self.system, from, to)? {
                            list.push(part.at(place))?;
                        }
                        if !list.is_empty() {
                            lists.push(list)?;
                        }
                    }
                }
                self.opened = Some(Opened {
                    lists,
                    list: 0,
                    page: 0,
                    per_page: self.rules.page,
                });
                return Ok(QUIET);
            }
        }
        Ok(BELL)
    }
}
