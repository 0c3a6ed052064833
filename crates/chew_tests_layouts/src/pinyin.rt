//! Pinyin over lists of keys. The codes were worked out by hand, as `initial * 512 + medial * 128 + final * 8 + tone`.

use crate::steps::{Typed, types};
use chew_layouts::Kind;

/// Syllables without an initial.
const WITHOUT_INITIAL: [Typed; 14] = [
    (b"a ", b"kw", 8, "ㄚ"),
    (b"o5", b"kw", 17, "ㄛ˙"),
    (b"ai4", b"kkw", 44, "ㄞˋ"),
    (b"eng1", b"kkkw", 96, "ㄥ"),
    (b"er3", b"kkw", 107, "ㄦˇ"),
    (b"yi2", b"kkw", 130, "ㄧˊ"),
    (b"ye3", b"kkw", 163, "ㄧㄝˇ"),
    (b"ying ", b"kkkkw", 224, "ㄧㄥ"),
    (b"wu3", b"kkw", 259, "ㄨˇ"),
    (b"wei4", b"kkkw", 308, "ㄨㄟˋ"),
    (b"wang2", b"kkkkw", 346, "ㄨㄤˊ"),
    (b"yu5", b"kkw", 385, "ㄩ˙"),
    (b"yue4", b"kkkw", 420, "ㄩㄝˋ"),
    (b"yong3", b"kkkkw", 483, "ㄩㄥˇ"),
];

/// Syllables with an initial.
const WITH_INITIAL: [Typed; 33] = [
    (b"bo1", b"kkw", 528, "ㄅㄛ"),
    (b"peng2", b"kkkkw", 1122, "ㄆㄥˊ"),
    (b"ma ", b"kkw", 1544, "ㄇㄚ"),
    (b"ma1", b"kkw", 1544, "ㄇㄚ"),
    (b"ma2", b"kkw", 1546, "ㄇㄚˊ"),
    (b"ma3", b"kkw", 1547, "ㄇㄚˇ"),
    (b"ma4", b"kkw", 1548, "ㄇㄚˋ"),
    (b"ma5", b"kkw", 1545, "ㄇㄚ˙"),
    (b"fei1", b"kkkw", 2096, "ㄈㄟ"),
    (b"diu1", b"kkkw", 2752, "ㄉㄧㄡ"),
    (b"ting2", b"kkkkw", 3298, "ㄊㄧㄥˊ"),
    (b"gi1", b"kkw", 4736, "ㄍㄧ"),
    (b"gui4", b"kkkw", 4916, "ㄍㄨㄟˋ"),
    (b"kuai4", b"kkkkw", 5420, "ㄎㄨㄞˋ"),
    (b"hong2", b"kkkkw", 5986, "ㄏㄨㄥˊ"),
    (b"nin2", b"kkkw", 3794, "ㄋㄧㄣˊ"),
    (b"nv3", b"kkw", 3971, "ㄋㄩˇ"),
    (b"nve4", b"kkkw", 4004, "ㄋㄩㄝˋ"),
    (b"nue4", b"kkkw", 4004, "ㄋㄩㄝˋ"),
    (b"lu4", b"kkw", 4356, "ㄌㄨˋ"),
    (b"lue4", b"kkkw", 4516, "ㄌㄩㄝˋ"),
    (b"lun2", b"kkkw", 4434, "ㄌㄨㄣˊ"),
    (b"jia1", b"kkkw", 6280, "ㄐㄧㄚ"),
    (b"ju2", b"kkw", 6530, "ㄐㄩˊ"),
    (b"qiong2", b"kkkkkw", 7138, "ㄑㄩㄥˊ"),
    (b"quan2", b"kkkkw", 7114, "ㄑㄩㄢˊ"),
    (b"xun4", b"kkkw", 7636, "ㄒㄩㄣˋ"),
    (b"chong2", b"kkkkkw", 8546, "ㄔㄨㄥˊ"),
    (b"shi4", b"kkkw", 8708, "ㄕˋ"),
    (b"shuang1", b"kkkkkkw", 9048, "ㄕㄨㄤ"),
    (b"ri4", b"kkw", 9220, "ㄖˋ"),
    (b"zi5", b"kkw", 9729, "ㄗ˙"),
    (b"sai1", b"kkkw", 10792, "ㄙㄞ"),
];

/// Letters that spell no syllable.
const NO_SPELLINGS: [Typed; 10] = [
    (b"ja1", b"kkr", 0, ""),
    (b"zhia2", b"kkkkr", 0, ""),
    (b"bv4", b"kkr", 0, ""),
    (b"jv4", b"kkr", 0, ""),
    (b"jong1", b"kkkkr", 0, ""),
    (b"bue3", b"kkkr", 0, ""),
    (b"ber2", b"kkkr", 0, ""),
    (b"b1", b"kr", 0, ""),
    (b"zh ", b"kkr", 0, ""),
    (b"yai2", b"kkkr", 0, ""),
];

/// Letters too many, letters erased, and other keys.
const ONE_BY_ONE: [Typed; 9] = [
    (b"shuangg1", b"kkkkkkrw", 9048, "ㄕㄨㄤ"),
    (b"shuanga\x08\x084", b"kkkkkkreew", 8972, "ㄕㄨㄚˋ"),
    (b"max\x08 ", b"kkkew", 1544, "ㄇㄚ"),
    (b"xu\x08i4", b"kkekw", 7300, "ㄒㄧˋ"),
    (b"lvn4\x084", b"kkkrew", 4484, "ㄌㄩˋ"),
    (b"a\x08\x08 ", b"kenn", 0, ""),
    (b" 12345\x08A", b"nnnnnnnn", 0, ""),
    (b"ma06Z;5", b"kknnnnw", 1545, "ㄇㄚ˙"),
    (b"de5 4\x08", b"kkwnnn", 2585, "ㄉㄜ˙"),
];

#[test]
fn spellings_make_their_syllables(rt: HostRuntime) {
    types(&rt, Kind::Pinyin, &WITHOUT_INITIAL);
    types(&rt, Kind::Pinyin, &WITH_INITIAL);
}

#[test]
fn what_is_no_spelling_is_refused(rt: HostRuntime) {
    types(&rt, Kind::Pinyin, &NO_SPELLINGS);
}

#[test]
fn letters_go_one_by_one_and_other_keys_change_nothing(rt: HostRuntime) {
    types(&rt, Kind::Pinyin, &ONE_BY_ONE);
}
