ghost use Rattle.std.specs.Prelude.{◌≡◌, ◌-◌, ◌<◌, ◌≤◌, ◌==◌, suc, IfOk, IfSome, IsTrue, drop, if◌then◌else◌, length, slice_get, take};
ghost use Rattle.std.specs.List.{list_all};
ghost use Rattle.std.specs.Option.{option_copied};
ghost use Rattle.chew_spec_preedit.specs.Window.{has_candidate, is_falling, is_window, next_page, on_page, opened, page_before, pages_of, picked, rows_shown, shorter};

use crate::candidate_list::{CandList, lists_copied};
use chew_phrasing::Choice;
use chew_plain::Hit;
use chew_syllable::NoMemory;
use std::alloc::Global;
use std::marker::Model;

/// The lists of candidates for a place of the buffer, the longest first, and what is shown of them now: a page of a list.
/// Only `copy` takes memory.
#[derive(Debug, Drop)]
pub struct Window {
    place: u8,
    lists: Vec<CandList>,
    per_page: u8,
    list: usize,
    page: u64,
}

impl Model for Window {
    ghost use Rattle.std.specs.Prelude.{IsTrue};
    ghost use Rattle.chew_spec_preedit.specs.Window as spec;

    ghost Value = { spec.Window };

    ghost view = { λ w. record { place = w.place; lists = w.lists.items; per_page = w.per_page; list = w.list; page = w.page } };

    ghost invariant = { λ w. IsTrue (spec.is_window (record { place = w.place; lists = w.lists.items; per_page = w.per_page; list = w.list; page = w.page })) };
}

impl Window {
    /// The window at a place of the buffer, at the longest list and its first page. The lists are by length falling, each
    /// with a candidate; 1 to 10 candidates are on a page.
    pub fn show(place: u8, lists: Vec<CandList>, page: u8) -> Window
        requires some { 0 < length lists.items }
        requires falling { IsTrue (is_falling lists.items) }
        requires filled { IsTrue (list_all has_candidate lists.items) }
        requires one { 1 ≤ page }
        requires ten { page ≤ 10 }
        ensures { result ≡ opened place lists.items page }
    {
        Window {
            place,
            lists,
            per_page: page,
            list: 0,
            page: 1,
        }
    }

    /// The same window once more.
    pub fn copy(&self, alloc: Global) -> Result<Window, NoMemory>
        ensures { IfOk result (λ window. window ≡ self.now) }
    {
        let lists = lists_copied(alloc, self.lists.as_slice())?;
        Ok(Window {
            place: self.place,
            lists,
            per_page: self.per_page,
            list: self.list,
            page: self.page,
        })
    }

    /// The place in the buffer of the candidates' first cell.
    pub fn place(&self) -> u8
        ensures value { result ≡ self.now.place }
        ensures valid { IsTrue (is_window self.now) }
    {
        self.place
    }

    /// The candidates of the list that is shown, over all its pages.
    fn rows(&self) -> &[Hit]
        ensures { result.now ≡ rows_shown self.now }
    {
        match self.lists.get(self.list) {
            Some(list) => list.rows.list(),
            None => &[],
        }
    }

    /// Goes to the first page of the next shorter list, and from the shortest to the longest.
    pub fn shorter(&mut self)
        ensures { self.new ≡ shorter self.old }
    {
        let list = list_behind(self.list, self.lists.as_slice());
        self.list = list;
        self.page = 1;
    }

    /// Goes to the next page of the list, and from the last to the first.
    pub fn page_next(&mut self)
        ensures { self.new ≡ next_page self.old }
    {
        let page = page_behind(self.page_number(), self.pages());
        self.page = page;
    }

    /// Goes to the page before, and from the first to the last.
    pub fn page_back(&mut self)
        ensures { self.new ≡ page_before self.old }
    {
        let page = page_before(self.page_number(), self.pages());
        self.page = page;
    }

    /// Which page is shown, from 1 on.
    pub fn page_number(&self) -> u64
        ensures value { result ≡ self.now.page }
        ensures valid { IsTrue (is_window self.now) }
    {
        self.page
    }

    /// How many pages the list has that is shown, at least one.
    pub fn pages(&self) -> u64
        ensures { result ≡ pages_of self.now }
    {
        let per_page = usize::from(self.per_page);
        ((self.rows().len() + (per_page - 1)) / per_page) as u64
    }

    /// The candidates of the page.
    pub fn on_page(&self) -> &[Hit]
        ensures { result.now ≡ on_page self.now }
    {
        let rows = self.rows();
        let per_page = usize::from(self.per_page);
        let start = (self.page - 1) as usize * per_page;
        page_from(rows, start, per_page)
    }

    /// The choice that a candidate of the page makes, counted from 0; `None` where the page has no such candidate.
    #[tactic(auto, unfolding(chew_spec_preedit::specs::Window::picked))]
    pub fn pick(&self, k: u8) -> Option<Choice>
        ensures value { result ≡ picked self.now k }
        ensures freq { IfSome result (λ choice. choice.freq ≤ 99_999_999) }
    {
        let hit = candidate_at(self.on_page(), k)?;
        Some(Choice {
            start: self.place,
            phrase: hit.phrase.copy(),
            freq: hit.freq,
        })
    }
}

/// At most so many of the rows, from a place on.
fn page_from(rows: &[Hit], start: usize, per_page: usize) -> &[Hit]
    requires { start ≤ length rows.now }
    ensures { result.now ≡ take per_page (drop start rows.now) }
{
    let rest = &rows[start..];
    if rest.len() > per_page {
        &rest[..per_page]
    } else {
        rest
    }
}

/// One of the rows, where there is one.
fn candidate_at(rows: &[Hit], k: u8) -> Option<&Hit>
    ensures { option_copied result ≡ slice_get rows.now k }
{
    rows.get(usize::from(k))
}

/// The list behind one of these, and behind the last the first.
fn list_behind(list: usize, lists: &[CandList]) -> usize
    requires { list < length lists.now }
    ensures { result ≡ (if suc list == length lists.now then 0 else suc list) }
{
    if list + 1 == lists.len() { 0 } else { list + 1 }
}

/// The page behind one of so many, and behind the last the first.
fn page_behind(page: u64, pages: u64) -> u64
    requires { page ≤ pages }
    ensures { result ≡ (if page == pages then 1 else suc page) }
{
    if page == pages { 1 } else { page + 1 }
}

/// The page before one of so many, and before the first the last.
fn page_before(page: u64, pages: u64) -> u64
    requires { 1 ≤ page }
    ensures { result ≡ (if page == 1 then pages else page - 1) }
{
    if page == 1 { pages } else { page - 1 }
}
