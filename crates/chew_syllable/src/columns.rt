ghost use Rattle.std.specs.Prelude.{◌≡◌, ◌<◌, ◌≤◌, ◌==◌, IfSome, IsTrue, OnSome, SomeIff, length, position};
ghost use Rattle.chew_spec_layout.specs.Table.{has_key, number_of};

/// The keys of a layout by the parts of a syllable that they stand for, each column in the order of its parts' numbers.
#[derive(Clone, Copy, Debug, PartialEq, Eq)]
pub struct Columns {
    /// 21 keys.
    pub initials: &'static [u8],
    /// 3 keys.
    pub medials: &'static [u8],
    /// 13 keys.
    pub finals: &'static [u8],
    /// 4 keys.
    pub tones: &'static [u8],
}

/// The first place of a key in a column, counted from 0.
pub fn place_of(column: &[u8], key: u8) -> Option<usize>
    ensures value { result ≡ position (λ k. k == key) column.now }
    ensures range { IfSome result (λ place. place < length column.now) }
{
    column.iter().position(|k| *k == key)
}

/// Whether a key stands in a column.
pub fn has_key(column: &[u8], key: u8) -> bool
    ensures { result ≡ has_key column.now key }
{
    place_of(column, key).is_some()
}

/// The number of the first part of a column that a key stands for; `None` where it stands for none.
pub fn number_in(column: &[u8], key: u8) -> Option<u8>
    requires { length column.now ≤ 255 }
    ensures value { SomeIff result (IsTrue (has_key column.now key)) (number_of column.now key) }
    ensures range { OnSome result (number_of column.now key ≤ length column.now) }
{
    let place = place_of(column, key)?;
    Some(place as u8 + 1)
}

/// The same number; 0 where the key stands for none.
pub fn number_of(column: &[u8], key: u8) -> u8
    requires { length column.now ≤ 255 }
    ensures value { result ≡ number_of column.now key }
    ensures range { result ≤ length column.now }
{
    match place_of(column, key) {
        Some(place) => place as u8 + 1,
        None => 0,
    }
}
