//! The table of Pinyin's spellings.

ghost use Rattle.std.specs.Prelude.{◌≡◌, [], IsTrue, codes, encode_utf8_all, length};
ghost use Rattle.chew_spec_layout.specs.Endings.{endings_a, endings_i, endings_u, endings_v, endings_yu, ending_bare};
ghost use Rattle.chew_spec_layout.specs.SpellingKeys.{no_spelling_twice, spellings_text, with_initials};
ghost use Rattle.chew_spec_layout.specs.Spellings.{alone, bare_initials, n_initials, palatal_initials, plain_initials, spellings};

/// Each list of the table as one text: the letters of each spelling, and its marks.
pub fn table_of_spellings()
    ensures alone { spellings_text alone ≡ encode_utf8_all (codes "aㄚoㄛeㄜaiㄞeiㄟaoㄠouㄡanㄢenㄣangㄤengㄥerㄦyiㄧyaㄧㄚyoㄧㄛyeㄧㄝyaoㄧㄠyouㄧㄡyanㄧㄢyinㄧㄣyangㄧㄤyingㄧㄥwuㄨwaㄨㄚwoㄨㄛwaiㄨㄞweiㄨㄟwanㄨㄢwenㄨㄣwangㄨㄤwengㄨㄥyuㄩyueㄩㄝyuanㄩㄢyunㄩㄣyongㄩㄥ") }
    ensures open_endings { spellings_text endings_a ≡ encode_utf8_all (codes "aㄚoㄛeㄜaiㄞeiㄟaoㄠouㄡanㄢenㄣangㄤengㄥ") }
    ensures i_endings { spellings_text endings_i ≡ encode_utf8_all (codes "iㄧiaㄧㄚieㄧㄝiaoㄧㄠiuㄧㄡianㄧㄢinㄧㄣiangㄧㄤingㄧㄥ") }
    ensures u_endings { spellings_text endings_u ≡ encode_utf8_all (codes "uㄨuaㄨㄚuoㄨㄛuaiㄨㄞuiㄨㄟuanㄨㄢunㄨㄣuangㄨㄤongㄨㄥ") }
    ensures v_endings { spellings_text endings_v ≡ encode_utf8_all (codes "vㄩveㄩㄝueㄩㄝ") }
    ensures yu_endings { spellings_text endings_yu ≡ encode_utf8_all (codes "iongㄩㄥuㄩueㄩㄝuanㄩㄢunㄩㄣ") }
    ensures bare_ending { spellings_text ending_bare ≡ encode_utf8_all (codes "i") }
    ensures plain { spellings_text plain_initials ≡ encode_utf8_all (codes "bㄅpㄆmㄇfㄈdㄉtㄊgㄍkㄎhㄏ") }
    ensures n_and_l { spellings_text n_initials ≡ encode_utf8_all (codes "nㄋlㄌ") }
    ensures palatal { spellings_text palatal_initials ≡ encode_utf8_all (codes "jㄐqㄑxㄒ") }
    ensures bare { spellings_text bare_initials ≡ encode_utf8_all (codes "zhㄓchㄔshㄕrㄖzㄗcㄘsㄙ") }
{}

/// Which initials take which endings, from the letters b p m f d t g k h, n l, j q x, zh ch sh r z c s; `-` stands where
/// the letters spell nothing.
pub fn initials_with_endings()
    ensures ang { with_initials (codes "ang") ≡ encode_utf8_all (codes "ㄅㄤㄆㄤㄇㄤㄈㄤㄉㄤㄊㄤㄍㄤㄎㄤㄏㄤㄋㄤㄌㄤ---ㄓㄤㄔㄤㄕㄤㄖㄤㄗㄤㄘㄤㄙㄤ") }
    ensures iang { with_initials (codes "iang") ≡ encode_utf8_all (codes "ㄅㄧㄤㄆㄧㄤㄇㄧㄤㄈㄧㄤㄉㄧㄤㄊㄧㄤㄍㄧㄤㄎㄧㄤㄏㄧㄤㄋㄧㄤㄌㄧㄤㄐㄧㄤㄑㄧㄤㄒㄧㄤ-------") }
    ensures uang { with_initials (codes "uang") ≡ encode_utf8_all (codes "ㄅㄨㄤㄆㄨㄤㄇㄨㄤㄈㄨㄤㄉㄨㄤㄊㄨㄤㄍㄨㄤㄎㄨㄤㄏㄨㄤㄋㄨㄤㄌㄨㄤ---ㄓㄨㄤㄔㄨㄤㄕㄨㄤㄖㄨㄤㄗㄨㄤㄘㄨㄤㄙㄨㄤ") }
    ensures ong { with_initials (codes "ong") ≡ encode_utf8_all (codes "ㄅㄨㄥㄆㄨㄥㄇㄨㄥㄈㄨㄥㄉㄨㄥㄊㄨㄥㄍㄨㄥㄎㄨㄥㄏㄨㄥㄋㄨㄥㄌㄨㄥ---ㄓㄨㄥㄔㄨㄥㄕㄨㄥㄖㄨㄥㄗㄨㄥㄘㄨㄥㄙㄨㄥ") }
    ensures i { with_initials (codes "i") ≡ encode_utf8_all (codes "ㄅㄧㄆㄧㄇㄧㄈㄧㄉㄧㄊㄧㄍㄧㄎㄧㄏㄧㄋㄧㄌㄧㄐㄧㄑㄧㄒㄧㄓㄔㄕㄖㄗㄘㄙ") }
    ensures u { with_initials (codes "u") ≡ encode_utf8_all (codes "ㄅㄨㄆㄨㄇㄨㄈㄨㄉㄨㄊㄨㄍㄨㄎㄨㄏㄨㄋㄨㄌㄨㄐㄩㄑㄩㄒㄩㄓㄨㄔㄨㄕㄨㄖㄨㄗㄨㄘㄨㄙㄨ") }
    ensures uan { with_initials (codes "uan") ≡ encode_utf8_all (codes "ㄅㄨㄢㄆㄨㄢㄇㄨㄢㄈㄨㄢㄉㄨㄢㄊㄨㄢㄍㄨㄢㄎㄨㄢㄏㄨㄢㄋㄨㄢㄌㄨㄢㄐㄩㄢㄑㄩㄢㄒㄩㄢㄓㄨㄢㄔㄨㄢㄕㄨㄢㄖㄨㄢㄗㄨㄢㄘㄨㄢㄙㄨㄢ") }
    ensures v { with_initials (codes "v") ≡ encode_utf8_all (codes "---------ㄋㄩㄌㄩ----------") }
    ensures ve { with_initials (codes "ve") ≡ encode_utf8_all (codes "---------ㄋㄩㄝㄌㄩㄝ----------") }
    ensures ue { with_initials (codes "ue") ≡ encode_utf8_all (codes "---------ㄋㄩㄝㄌㄩㄝㄐㄩㄝㄑㄩㄝㄒㄩㄝ-------") }
    ensures iong { with_initials (codes "iong") ≡ encode_utf8_all (codes "-----------ㄐㄩㄥㄑㄩㄥㄒㄩㄥ-------") }
    ensures none { with_initials [] ≡ encode_utf8_all (codes "---------------------") }
    ensures er { with_initials (codes "er") ≡ encode_utf8_all (codes "---------------------") }
{}

/// There are 550 spellings, and none stands twice.
pub fn number_of_spellings()
    ensures count { length spellings ≡ 550 }
    ensures once { IsTrue (no_spelling_twice spellings) }
{}
