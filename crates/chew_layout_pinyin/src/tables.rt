ghost use Rattle.std.specs.Prelude.{◌≡◌, flat_map};
ghost use Rattle.chew_spec_layout.specs.Spellings.{spellings};
ghost use Rattle.chew_layout_pinyin.specs.Tables.{row_of};

/// Letters, and the marks that they spell.
pub(crate) type Spelled = (&'static [u8], &'static str);

/// Initials, and the endings that each of them takes.
#[derive(Clone, Copy)]
pub(crate) struct Row {
    pub(crate) initials: &'static [Spelled],
    /// The endings, group by group.
    pub(crate) endings: &'static [&'static [Spelled]],
}

/// What stands before a spelling without an initial.
const NO_INITIAL: [Spelled; 1] = [(b"", "")];

/// Spellings without an initial.
const ALONE: [Spelled; 36] = [
    (b"a", "ㄚ"),
    (b"o", "ㄛ"),
    (b"e", "ㄜ"),
    (b"ai", "ㄞ"),
    (b"ei", "ㄟ"),
    (b"ao", "ㄠ"),
    (b"ou", "ㄡ"),
    (b"an", "ㄢ"),
    (b"en", "ㄣ"),
    (b"ang", "ㄤ"),
    (b"eng", "ㄥ"),
    (b"er", "ㄦ"),
    (b"yi", "ㄧ"),
    (b"ya", "ㄧㄚ"),
    (b"yo", "ㄧㄛ"),
    (b"ye", "ㄧㄝ"),
    (b"yao", "ㄧㄠ"),
    (b"you", "ㄧㄡ"),
    (b"yan", "ㄧㄢ"),
    (b"yin", "ㄧㄣ"),
    (b"yang", "ㄧㄤ"),
    (b"ying", "ㄧㄥ"),
    (b"wu", "ㄨ"),
    (b"wa", "ㄨㄚ"),
    (b"wo", "ㄨㄛ"),
    (b"wai", "ㄨㄞ"),
    (b"wei", "ㄨㄟ"),
    (b"wan", "ㄨㄢ"),
    (b"wen", "ㄨㄣ"),
    (b"wang", "ㄨㄤ"),
    (b"weng", "ㄨㄥ"),
    (b"yu", "ㄩ"),
    (b"yue", "ㄩㄝ"),
    (b"yuan", "ㄩㄢ"),
    (b"yun", "ㄩㄣ"),
    (b"yong", "ㄩㄥ"),
];

/// Endings without a medial.
const ENDINGS_A: [Spelled; 11] = [
    (b"a", "ㄚ"),
    (b"o", "ㄛ"),
    (b"e", "ㄜ"),
    (b"ai", "ㄞ"),
    (b"ei", "ㄟ"),
    (b"ao", "ㄠ"),
    (b"ou", "ㄡ"),
    (b"an", "ㄢ"),
    (b"en", "ㄣ"),
    (b"ang", "ㄤ"),
    (b"eng", "ㄥ"),
];

/// Endings with ㄧ.
const ENDINGS_I: [Spelled; 9] = [
    (b"i", "ㄧ"),
    (b"ia", "ㄧㄚ"),
    (b"ie", "ㄧㄝ"),
    (b"iao", "ㄧㄠ"),
    (b"iu", "ㄧㄡ"),
    (b"ian", "ㄧㄢ"),
    (b"in", "ㄧㄣ"),
    (b"iang", "ㄧㄤ"),
    (b"ing", "ㄧㄥ"),
];

/// Endings with ㄨ.
const ENDINGS_U: [Spelled; 9] = [
    (b"u", "ㄨ"),
    (b"ua", "ㄨㄚ"),
    (b"uo", "ㄨㄛ"),
    (b"uai", "ㄨㄞ"),
    (b"ui", "ㄨㄟ"),
    (b"uan", "ㄨㄢ"),
    (b"un", "ㄨㄣ"),
    (b"uang", "ㄨㄤ"),
    (b"ong", "ㄨㄥ"),
];

/// Endings in ㄩ behind ㄋ and ㄌ, which have ㄨ too.
const ENDINGS_V: [Spelled; 3] = [(b"v", "ㄩ"), (b"ve", "ㄩㄝ"), (b"ue", "ㄩㄝ")];

/// Endings in ㄩ behind ㄐ, ㄑ and ㄒ, which have no ㄨ.
const ENDINGS_YU: [Spelled; 5] = [
    (b"iong", "ㄩㄥ"),
    (b"u", "ㄩ"),
    (b"ue", "ㄩㄝ"),
    (b"uan", "ㄩㄢ"),
    (b"un", "ㄩㄣ"),
];

/// The ending of an initial that is a syllable by itself.
const ENDING_BARE: [Spelled; 1] = [(b"i", "")];

/// The initials that take the endings of all three kinds.
const PLAIN_INITIALS: [Spelled; 9] = [
    (b"b", "ㄅ"),
    (b"p", "ㄆ"),
    (b"m", "ㄇ"),
    (b"f", "ㄈ"),
    (b"d", "ㄉ"),
    (b"t", "ㄊ"),
    (b"g", "ㄍ"),
    (b"k", "ㄎ"),
    (b"h", "ㄏ"),
];

/// The initials that take ㄩ too.
const N_INITIALS: [Spelled; 2] = [(b"n", "ㄋ"), (b"l", "ㄌ")];

/// The initials before ㄧ and ㄩ alone.
const PALATAL_INITIALS: [Spelled; 3] = [(b"j", "ㄐ"), (b"q", "ㄑ"), (b"x", "ㄒ")];

/// The initials that are syllables by themselves.
const BARE_INITIALS: [Spelled; 7] = [
    (b"zh", "ㄓ"),
    (b"ch", "ㄔ"),
    (b"sh", "ㄕ"),
    (b"r", "ㄖ"),
    (b"z", "ㄗ"),
    (b"c", "ㄘ"),
    (b"s", "ㄙ"),
];

/// All spellings.
static ROWS: [Row; 5] = [
    Row {
        initials: &NO_INITIAL,
        endings: &[&ALONE],
    },
    Row {
        initials: &PLAIN_INITIALS,
        endings: &[&ENDINGS_A, &ENDINGS_I, &ENDINGS_U],
    },
    Row {
        initials: &N_INITIALS,
        endings: &[&ENDINGS_A, &ENDINGS_I, &ENDINGS_U, &ENDINGS_V],
    },
    Row {
        initials: &PALATAL_INITIALS,
        endings: &[&ENDINGS_I, &ENDINGS_YU],
    },
    Row {
        initials: &BARE_INITIALS,
        endings: &[&ENDINGS_A, &ENDINGS_U, &ENDING_BARE],
    },
];

/// All spellings.
pub(crate) fn rows() -> &'static [Row]
    ensures { flat_map row_of result.now ≡ spellings }
{
    &ROWS
}
