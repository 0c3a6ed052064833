//! Hsu and ET26, key by key: the steps and the code were worked out by hand from the layouts' tables and rules.

use crate::steps::takes;
use chew_layouts::Kind;

#[test]
fn hsu(rt: HostRuntime) {
    let cases: [(&[u8], &[u8], u16); 28] = [
        (b"jej", b"kkw", 6276),
        (b"jj", b"kw", 7684),
        (b"agj", b"kkw", 10268),
        (b"lf", b"kw", 107),
        (b"jxl ", b"kkkw", 8032),
        (b"b ", b"kr", 0),
        (b"vxm ", b"kkkw", 8520),
        (b"cenj", b"kkkw", 7380),
        (b"ll ", b"kkw", 4192),
        (b"w ", b"kw", 56),
        (b"us", b"kw", 385),
        (b"xod", b"kkw", 322),
        (b"eej", b"kkw", 164),
        (b"rj", b"kw", 9220),
        (b"sxj", b"kkw", 11012),
        (b"dad", b"kkw", 2610),
        (b"jjjj", b"kwkw", 7684),
        (b"bb", b"kr", 0),
        (b"ttj", b"krr", 0),
        (b"bex", b"kkr", 0),
        (b"yyf", b"krw", 11),
        (b"belo ", b"kkkrw", 736),
        (b"p2 g ", b"knrkw", 1048),
        (b"je\x08j", b"kkew", 7684),
        (b"b\x08 ", b"ken", 0),
        (b"\x08", b"n", 0),
        (b" ", b"n", 0),
        (b"q1J", b"nnn", 0),
    ];
    for (keys, steps, code) in cases {
        takes(&rt, Kind::Hsu, keys, steps, code);
    }
}

#[test]
fn et26(rt: HostRuntime) {
    let cases: [(&[u8], &[u8], u16); 26] = [
        (b"gxk", b"kkw", 7940),
        (b"gud", b"kkw", 6529),
        (b"gxl ", b"kkkw", 8032),
        (b"v ", b"kr", 0),
        (b"vemf", b"kkkw", 6858),
        (b"vrk", b"kkw", 4636),
        (b"ck", b"kw", 8708),
        (b"jj", b"kw", 9219),
        (b"dak", b"kkw", 2572),
        (b"kk", b"kr", 0),
        (b"hk", b"kw", 108),
        (b"l ", b"kw", 96),
        (b"ll ", b"kkw", 4192),
        (b"ej", b"kw", 131),
        (b"xt ", b"kkw", 344),
        (b"wwd", b"kkw", 10273),
        (b"bv", b"kr", 0),
        (b"aad", b"krw", 9),
        (b"exe", b"krr", 0),
        (b"gegw ", b"kkrkw", 6304),
        (b"beza ", b"kkkrw", 696),
        (b"g3 ", b"knw", 7680),
        (b"ge\x08k", b"kkew", 7684),
        (b"ben\x08\x08\x08\x08", b"kkkeeen", 0),
        (b"\x08", b"n", 0),
        (b" A", b"nn", 0),
    ];
    for (keys, steps, code) in cases {
        takes(&rt, Kind::Et26, keys, steps, code);
    }
}
