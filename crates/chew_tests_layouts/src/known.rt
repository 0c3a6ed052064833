//! Known syllables of each layout. The codes are `initial * 512 + medial * 128 + final * 8 + tone`.

use crate::steps::{Typed, types};
use chew_layouts::Kind;

/// The syllables of each layout.
const KNOWN: [(Kind, &[Typed]); 5] = [
    (
        Kind::Standard,
        &[
            (b"hk4", b"kkw", 10268, "ㄘㄜˋ"),
            (b"g4", b"kw", 8708, "ㄕˋ"),
            (b"8 ", b"kw", 8, "ㄚ"),
        ],
    ),
    (
        Kind::Eten,
        &[
            (b";r4", b"kkw", 9756, "ㄗㄜˋ"),
            (b"/4", b"kw", 8708, "ㄕˋ"),
            (b"tme-2", b"kkkkw", 1762, "ㄇㄧㄥˊ"),
            (b"t\x08me-2", b"kekkkw", 1762, "ㄇㄧㄥˊ"),
            (b"4 ", b"rn", 0, ""),
        ],
    ),
    (
        Kind::Hsu,
        &[
            (b"jej", b"kkw", 6276, "ㄐㄧˋ"),
            (b"jj", b"kw", 7684, "ㄓˋ"),
            (b"agj", b"kkw", 10268, "ㄘㄜˋ"),
            (b"lf", b"kw", 107, "ㄦˇ"),
            (b"jxl ", b"kkkw", 8032, "ㄓㄨㄥ"),
        ],
    ),
    (
        Kind::Et26,
        &[
            (b"wrk", b"kkw", 10268, "ㄘㄜˋ"),
            (b"g ", b"kw", 7680, "ㄓ"),
            (b"ge ", b"kkw", 6272, "ㄐㄧ"),
        ],
    ),
    (
        Kind::Pinyin,
        &[
            (b"lv4", b"kkw", 4484, "ㄌㄩˋ"),
            (b"xu2", b"kkw", 7554, "ㄒㄩˊ"),
            (b"zhi1", b"kkkw", 7680, "ㄓ"),
            (b"ce4", b"kkw", 10268, "ㄘㄜˋ"),
        ],
    ),
];

#[test]
fn keys_make_known_syllables(rt: HostRuntime) {
    for (kind, rows) in &KNOWN {
        types(&rt, *kind, rows);
    }
}

#[test]
fn an_initial_alone_is_refused(rt: HostRuntime) {
    types(&rt, Kind::Hsu, &[(b"b ", b"kr", 0, "")]);
}
