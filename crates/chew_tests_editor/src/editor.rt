//! Keys and the lines that an editor shows for them.

use crate::alone::Alone;
use crate::samples::{after, keys_in};
use chew_layouts::Kind;
use chew_plain::{Plain, RowMap};
use chew_samples::{are_apart, row, syllable};
use chew_settings::Settings;
use std::alloc::Global;
use std::process::Abort;
use std::test::Fail;

/// These keys print these lines over the five rows.
fn print(rt: &impl Abort, alloc: Global, keys: &str, lines: &str) -> Result<(), Fail> {
    let alone = after(alloc, &Settings::standard(), keys)?;
    assert_eq!(rt; alone.lines.as_slice(), lines.as_bytes());
    Ok(())
}

#[test]
fn keys_give_lines(rt: HostRuntime) -> Result<(), Fail> {
    print(
        &rt,
        rt.alloc(),
        "hk4g<E>4<E>18 ",
        "\t0\tㄘ\t\t\t\n\t0\tㄘㄜ\t\t\t\n策\t2\t\t\t\t\n策\t2\tㄕ\t\t\t\n策\t2\tㄕ\t\t\tbell\n\
         測試\t4\t\t\t\t\n\t0\t\t測試\t\t\n\t0\tㄅ\t\t\t\n\t0\tㄅㄚ\t\t\t\n\t0\t\t\t\tbell\n",
    )
}

#[test]
fn backspace_takes_the_last_part(rt: HostRuntime) -> Result<(), Fail> {
    print(
        &rt,
        rt.alloc(),
        "hk<B><B><B>",
        "\t0\tㄘ\t\t\t\n\t0\tㄘㄜ\t\t\t\n\t0\tㄘ\t\t\t\n\t0\t\t\t\t\n\t0\t\t\t\tbell\n",
    )
}

#[test]
fn esc_clears_what_is_held(rt: HostRuntime) -> Result<(), Fail> {
    print(
        &rt,
        rt.alloc(),
        "<X>hk4g<X><X>",
        "\t0\t\t\t\tbell\n\t0\tㄘ\t\t\t\n\t0\tㄘㄜ\t\t\t\n策\t2\t\t\t\t\n策\t2\tㄕ\t\t\t\n策\t2\t\t\t\t\n策\t2\t\t\t\tbell\n",
    )
}

#[test]
fn keys_ring_while_something_is_held(rt: HostRuntime) -> Result<(), Fail> {
    print(
        &rt,
        rt.alloc(),
        "g<D><L><R><H><Z><U><V><P><N><T><C2><F1><K2>!",
        "\t0\tㄕ\t\t\t\n\
         \t0\tㄕ\t\t\tbell\n\t0\tㄕ\t\t\tbell\n\t0\tㄕ\t\t\tbell\n\t0\tㄕ\t\t\tbell\n\t0\tㄕ\t\t\tbell\n\
         \t0\tㄕ\t\t\tbell\n\t0\tㄕ\t\t\tbell\n\t0\tㄕ\t\t\tbell\n\t0\tㄕ\t\t\tbell\n\t0\tㄕ\t\t\tbell\n\
         \t0\tㄕ\t\t\tbell\n\t0\tㄕ\t\t\tbell\n\t0\tㄕ\t\t\tbell\n\t0\tㄕ\t\t\tbell\n",
    )
}

/// 仄, whose reading is ㄗㄜˋ.
#[test]
fn an_editor_of_the_eten_layout(rt: HostRuntime) -> Result<(), Fail> {
    let alloc = rt.alloc();
    let mut rows = Vec::new(alloc);
    if let Some(row) = row(&[syllable(9756)], "仄", 100) {
        rows.push(row)?;
    }
    assert_eq!(rt; rows.len(), 1);
    assert!(rt; are_apart(&rows));
    let system = RowMap::of(rows)?;
    let settings = Settings {
        layout: Kind::Eten,
        buffer: 10,
        page: 10,
        selection: *b"1234567890",
        escape_clears: false,
        learn: true,
        cap: 65_536,
    };
    let plain = Plain::of(Vec::new(alloc), 0, 65_536)?;
    let alone = Alone::new(alloc, system, &settings, plain);
    let keys = keys_in(alloc, ";r4<E>")?;
    let typed = alone.typed(alloc, keys.as_slice())?;
    assert_eq!(rt;
        typed.lines.as_slice(),
        "\t0\tㄗ\t\t\t\n\t0\tㄗㄜ\t\t\t\n仄\t2\t\t\t\t\n\t0\t\t仄\t\t\n".as_bytes()
    );
    Ok(())
}
