//! Lines of editors with other settings than the standard ones, and over a dictionary that others change.

use crate::samples::{after, calls, ce_shi, ends_with, over_five, settings, typed};
use chew_plain::Call;
use chew_settings::Settings;
use std::test::Fail;

#[test]
fn a_choice_lasts_where_its_pair_is_forgotten(rt: HostRuntime) -> Result<(), Fail> {
    let alloc = rt.alloc();
    let (key, phrase) = ce_shi()?;
    let learn = Call::Learn {
        key,
        phrase,
        orig: 0,
        peak: 9318,
    };
    let learnt = over_five(alloc, &Settings::standard())?.told(&learn)?;
    let opened = typed(alloc, learnt, "hk4g4<H><V>")?;
    ends_with(&rt, &opened, "\n測試\t0\t\t\t1/1 1測試 2策試\t\n");
    let picked = typed(alloc, opened, "2")?;
    ends_with(&rt, &picked, "\n策試\t0\t\t\t\t\n");
    let (key, phrase) = ce_shi()?;
    let forgotten = picked.told(&Call::Forget { key, phrase })?;
    let last = typed(alloc, forgotten, "<Z>hk4")?;
    ends_with(&rt, &last, "\n策試策\t6\t\t\t\t\n");
    assert_eq!(rt; last.plain.pairs(), 0);
    Ok(())
}

#[test]
fn a_full_dictionary_takes_no_new_pair(rt: HostRuntime) -> Result<(), Fail> {
    let alloc = rt.alloc();
    let full = after(alloc, &settings(10, 10, true, 2), "hk4<E>g4<E>hk4g4<E>")?;
    ends_with(
        &rt,
        &full,
        "\n\t0\t\t是\t\t\n\t0\tㄘ\t\t\t\n\t0\tㄘㄜ\t\t\t\n策\t2\t\t\t\t\n策\t2\tㄕ\t\t\t\n測試\t4\t\t\t\t\n\t0\t\t測試\t\tfull\n",
    );
    let last = typed(alloc, full, "hk4<E>")?;
    ends_with(&rt, &last, "\n策\t2\t\t\t\t\n\t0\t\t策\t\t\n");
    assert_eq!(rt; last.plain.pairs(), 2);
    assert_eq!(rt; last.plain.life(), 3);
    Ok(())
}

#[test]
fn a_full_dictionary_hides_no_new_pair(rt: HostRuntime) -> Result<(), Fail> {
    let last = after(rt.alloc(), &settings(10, 10, true, 1), "hk4<E>hk4g4<H><K2>")?;
    ends_with(&rt, &last, "\n測試\t0\t\t\t\t\n測試\t0\t\t\t\tfull\n");
    Ok(())
}

#[test]
fn a_full_buffer_commits_and_learns_its_first_piece(rt: HostRuntime) -> Result<(), Fail> {
    let last = after(rt.alloc(), &settings(2, 10, true, 65_536), "hk4g4hk4")?;
    ends_with(&rt, &last, "\n測試\t4\tㄘㄜ\t\t\t\n策\t2\t\t測試\t\t\n");
    calls(
        &rt,
        &last,
        "1 look 10268\n1 look 10268,8708\n1 learn 10268,8708 測試 9318 9318\n1 look 10268\n",
    );
    Ok(())
}

#[test]
fn a_full_buffer_learns_nothing_where_learning_is_off(rt: HostRuntime) -> Result<(), Fail> {
    let last = after(rt.alloc(), &settings(2, 10, false, 65_536), "hk4g4hk4")?;
    ends_with(&rt, &last, "\n策\t2\t\t測試\t\t\n");
    calls(
        &rt,
        &last,
        "1 look 10268\n1 look 10268,8708\n1 look 10268\n",
    );
    Ok(())
}

#[test]
fn a_larger_buffer_takes_a_third_syllable(rt: HostRuntime) -> Result<(), Fail> {
    let last = after(rt.alloc(), &settings(39, 10, true, 65_536), "hk4g4hk4")?;
    ends_with(&rt, &last, "\n測試\t4\tㄘㄜ\t\t\t\n測試策\t6\t\t\t\t\n");
    Ok(())
}

#[test]
fn pages_of_one_candidate(rt: HostRuntime) -> Result<(), Fail> {
    let last = after(rt.alloc(), &settings(10, 1, true, 65_536), "hk4<V><N><N>3")?;
    ends_with(
        &rt,
        &last,
        "\n策\t2\t\t\t1/2 1策\t\n策\t2\t\t\t2/2 1測\t\n策\t2\t\t\t1/2 1策\t\n策\t2\t\t\t1/2 1策\tbell\n",
    );
    Ok(())
}
