/// The layouts by their names.
#[derive(Clone, Copy, Debug, PartialEq, Eq)]
pub enum Kind {
    /// The default layout.
    Standard,
    /// The Eten layout.
    Eten,
    /// The layout Hsu.
    Hsu,
    /// The layout ET26.
    Et26,
    /// Hanyu Pinyin.
    Pinyin,
}
