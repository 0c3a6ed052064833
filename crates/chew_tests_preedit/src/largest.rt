//! A window of the most lists, 11, each of thousands of candidates, is copied.

ghost use Rattle.std.specs.Prelude.{◌≡◌, ◌≤◌, nat_lt};
ghost use Rattle.std.specs.List.{list_all};
ghost use Rattle.chew_spec_preedit.specs.Window.{has_candidate, is_falling};

use chew_candidates::{CandList, Window};
use chew_plain::{Hit, Hits};
use chew_syllable::Phrase;
use std::alloc::Global;
use std::process::Abort;
use std::test::Fail;

/// How many candidates each list has.
const COUNT: u32 = 10_000;

/// 是, so many times.
fn text_of(alloc: Global, len: u8) -> Result<String, Fail> {
    let mut text = String::new(alloc);
    for _ in 0..len {
        text.push_str("是")?;
    }
    Ok(text)
}

/// The candidate of so many cells, with this frequency.
fn candidate(alloc: Global, len: u8, freq: u32) -> Result<Hit, Fail>
    requires { freq ≤ 99_999_999 }
{
    let Ok(phrase) = Phrase::read(text_of(alloc, len)?.as_bytes()) else {
        return Err(Fail::new("no phrase"));
    };
    if len == 0 || len > 11 || phrase.characters() != usize::from(len) {
        return Err(Fail::new("no candidate"));
    }
    Ok(Hit {
        start: 0,
        len,
        phrase,
        freq,
        hidden: false,
    })
}

/// The candidates of so many cells, whose frequencies rise from 0.
fn list(alloc: Global, len: u8) -> Result<CandList, Fail> {
    let mut hits = Vec::new(alloc);
    for freq in 0..COUNT {
        hits.push(candidate(alloc, len, freq)?)?;
    }
    Ok(CandList {
        len,
        rows: Hits::of(hits),
    })
}

/// The lists of 11 cells to one.
fn lists(alloc: Global) -> Result<Vec<CandList>, Fail> {
    let mut lists = Vec::new(alloc);
    for shorter in 0..11u8 {
        lists.push(list(alloc, 11 - shorter)?)?;
    }
    Ok(lists)
}

/// Whether a list has a candidate.
fn has_candidate(list: &CandList) -> bool
    ensures { result ≡ has_candidate list.now }
{
    0 < list.rows.list().len()
}

/// Whether each list has a candidate.
fn have_candidates(lists: &[CandList]) -> bool
    ensures { result ≡ list_all has_candidate lists.now }
{
    lists.iter().all(|list| has_candidate(list))
}

/// Whether each list is shorter than so many cells.
fn are_shorter(lists: &[CandList], len: u8) -> bool
    ensures { result ≡ list_all (λ list. nat_lt list.len len) lists.now }
{
    lists.iter().all(|list| list.len < len)
}

/// Whether each list is longer than those behind it.
fn are_falling(lists: &[CandList]) -> bool
    ensures { result ≡ is_falling lists.now }
{
    match lists {
        [] => true,
        [list, rest @ ..] => are_shorter(rest, list.len) && are_falling(rest),
    }
}

/// The window of all lists, ten candidates on a page.
fn window(alloc: Global) -> Result<Window, Fail> {
    let lists = lists(alloc)?;
    if lists.is_empty() {
        return Err(Fail::new("no list"));
    }
    if !are_falling(&lists) {
        return Err(Fail::new("a list out of turn"));
    }
    if !have_candidates(&lists) {
        return Err(Fail::new("no candidate"));
    }
    Ok(Window::show(0, lists, 10))
}

/// The window shows the first page of this length, and the last one is behind it.
fn has_all_pages(rt: &impl Abort, window: &mut Window, len: u8) {
    assert_eq!(rt; (window.page_number(), window.pages()), (1, 1000));
    window.page_back();
    assert_eq!(rt; window.page_number(), 1000);
    assert_eq!(rt; window.on_page().len(), 10);
    for (hit, freq) in window.on_page().iter().zip(9990..COUNT) {
        assert_eq!(rt; (hit.len, hit.freq), (len, freq));
    }
}

#[test]
fn a_window_of_the_most_lists_is_copied(rt: HostRuntime) -> Result<(), Fail> {
    let shown = window(rt.alloc())?;
    let mut copied = shown.copy(rt.alloc())?;
    assert_eq!(rt; copied.place(), 0);
    for shorter in 0..11u8 {
        has_all_pages(&rt, &mut copied, 11 - shorter);
        copied.shorter();
    }
    has_all_pages(&rt, &mut copied, 11);
    Ok(())
}
