//! Each kind of layout, and what it shows.

use arrayvec::ArrayString;
use chew_layouts::{Kind, Layout};
use chew_syllable::Step;

#[test]
fn each_kind_is_its_layout(rt: HostRuntime) {
    let cases: [(Kind, &[u8], &str, u8, u16); 5] = [
        (Kind::Standard, b"hk", "ㄘㄜ", b'4', 10268),
        (Kind::Eten, b";r", "ㄗㄜ", b'4', 9756),
        (Kind::Hsu, b"ag", "ag", b'j', 10268),
        (Kind::Et26, b"wr", "wr", b'k', 10268),
        (Kind::Pinyin, b"ce", "ce", b'4', 10268),
    ];
    for (kind, keys, shown, last, code) in cases {
        let mut layout = Layout::of(kind);
        for key in keys {
            assert_eq!(rt; layout.feed(*key), Step::Kept);
        }
        assert!(rt; layout.holds());
        assert_eq!(rt; layout.shown().as_str(), shown);
        let mut cleared = layout.copy();
        cleared.clear();
        assert!(rt; !cleared.holds());
        match layout.feed(last) {
            Step::Whole(syllable) => assert_eq!(rt; syllable.code(), code),
            _ => assert!(rt; false),
        }
    }
}

/// What a layout shows after these keys.
fn shown_after(kind: Kind, keys: &[u8]) -> ArrayString<12> {
    let mut layout = Layout::of(kind);
    for key in keys {
        layout.feed(*key);
    }
    layout.shown()
}

#[test]
fn shows_what_it_holds(rt: HostRuntime) {
    let cases: [(Kind, &[u8], &str); 8] = [
        (Kind::Standard, b"", ""),
        (Kind::Standard, b"au", "ㄇㄧ"),
        (Kind::Standard, b"au\x08", "ㄇ"),
        (Kind::Hsu, b"jxb", "jx"),
        (Kind::Hsu, b"jx\x08", "j"),
        (Kind::Et26, b"ge ", ""),
        (Kind::Pinyin, b"zhuangg", "zhuang"),
        (Kind::Pinyin, b"mi\x08\x08", ""),
    ];
    for (kind, keys, want) in cases {
        assert_eq!(rt; shown_after(kind, keys).as_str(), want);
    }
}
