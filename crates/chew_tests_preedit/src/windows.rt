//! The moves of a window, over lists of two candidates and of one.

use crate::samples::choice;
use chew_candidates::{CandList, Window};
use chew_plain::{Hit, Hits};
use chew_syllable::{Phrase, SYSTEM_ROWS_LIMIT};
use std::alloc::Global;
use std::process::Abort;
use std::test::Fail;

/// A candidate of so many cells.
fn hit(len: u8, text: &str, freq: u32) -> Result<Hit, Fail> {
    let Ok(phrase) = Phrase::read(text.as_bytes()) else {
        return Err(Fail::new("no phrase"));
    };
    if freq > 99_999_999 || len == 0 || len > 11 || phrase.characters() != usize::from(len) {
        return Err(Fail::new("no candidate"));
    }
    Ok(Hit {
        start: 0,
        len,
        phrase,
        freq,
        hidden: false,
    })
}

/// The window of 測試, and of 策 and 測, at a place, so many on a page.
fn shown(alloc: Global, place: u8, per_page: u8) -> Result<Window, Fail> {
    let mut two = Vec::new(alloc);
    two.push(hit(2, "測試", 9318)?)?;
    let mut one = Vec::new(alloc);
    one.push(hit(1, "策", 200)?)?;
    one.push(hit(1, "測", 100)?)?;
    let mut lists = Vec::new(alloc);
    lists.push(CandList {
        len: 2,
        rows: Hits::of(two),
    })?;
    lists.push(CandList {
        len: 1,
        rows: Hits::of(one),
    })?;
    if per_page == 0 || per_page > 10 {
        return Err(Fail::new("no page"));
    }
    Ok(Window::show(place, lists, per_page))
}

/// The window of as many candidates of one syllable as a system has rows at most, ten on a page.
fn largest(alloc: Global) -> Result<Window, Fail> {
    let mut hits = Vec::new(alloc);
    for freq in 0..SYSTEM_ROWS_LIMIT {
        hits.push(hit(1, "測", freq)?)?;
    }
    if hits.is_empty() {
        return Err(Fail::new("no candidate"));
    }
    let mut lists = Vec::new(alloc);
    lists.push(CandList {
        len: 1,
        rows: Hits::of(hits),
    })?;
    Ok(Window::show(3, lists, 10))
}

/// The window shows this page of so many, of these frequencies.
fn shows(rt: &impl Abort, window: &Window, page: u64, pages: u64, freqs: &[u32]) {
    assert_eq!(rt; (window.page_number(), window.pages()), (page, pages));
    assert_eq!(rt; window.on_page().len(), freqs.len());
    for (hit, freq) in window.on_page().iter().zip(freqs) {
        assert_eq!(rt; hit.freq, *freq);
    }
}

#[test]
fn a_window_goes_round_its_lists(rt: HostRuntime) -> Result<(), Fail> {
    let mut window = shown(rt.alloc(), 3, 10)?;
    shows(&rt, &window, 1, 1, &[9318]);
    window.shorter();
    shows(&rt, &window, 1, 1, &[200, 100]);
    window.shorter();
    shows(&rt, &window, 1, 1, &[9318]);
    Ok(())
}

#[test]
fn a_window_goes_round_its_pages(rt: HostRuntime) -> Result<(), Fail> {
    let mut window = shown(rt.alloc(), 3, 1)?;
    window.shorter();
    shows(&rt, &window, 1, 2, &[200]);
    window.page_next();
    shows(&rt, &window, 2, 2, &[100]);
    window.page_next();
    shows(&rt, &window, 1, 2, &[200]);
    window.page_back();
    shows(&rt, &window, 2, 2, &[100]);
    window.page_back();
    shows(&rt, &window, 1, 2, &[200]);
    window.page_next();
    window.shorter();
    shows(&rt, &window, 1, 1, &[9318]);
    Ok(())
}

#[test]
fn the_largest_window_is_copied(rt: HostRuntime) -> Result<(), Fail> {
    let window = largest(rt.alloc())?;
    let mut copy = window.copy(rt.alloc())?;
    shows(&rt, &copy, 1, 25_000, &[0, 1, 2, 3, 4, 5, 6, 7, 8, 9]);
    copy.page_back();
    assert_eq!(rt; copy.page_number(), 25_000);
    assert_eq!(rt; copy.on_page().first().map(|hit| hit.freq), Some(249_990));
    Ok(())
}

#[test]
fn a_pick_is_a_choice_at_the_windows_place(rt: HostRuntime) -> Result<(), Fail> {
    let mut window = shown(rt.alloc(), 3, 10)?;
    window.shorter();
    match window.pick(1) {
        Some(picked) => {
            let wanted = choice(3, "測", 100)?;
            assert_eq!(rt;
                (picked.start, picked.phrase.text(), picked.freq),
                (wanted.start, wanted.phrase.text(), wanted.freq)
            );
        }
        None => panic!(rt; "no pick"),
    }
    assert!(rt; window.pick(2).is_none());
    Ok(())
}
