ghost use Rattle.std.specs.Prelude.{◌≡◌, ◌≤◌, length};
ghost use Rattle.std.specs.Str.{IsUtf8};

use arrayvec::{ArrayString, ArrayVec};

/// These items in an array that has room for them. It takes no memory.
pub fn array_of<T: Copy + Default, const N: usize>(items: &[T]) -> ArrayVec<T, N>
    requires { length items.now ≤ N }
    ensures { result.items ≡ items.now }
{
    match ArrayVec::try_from(items) {
        Ok(array) => array,
        Err(_) => unreachable!(),
    }
}

/// This text in an array that has room for it. It takes no memory.
pub fn string_of<const N: usize>(text: &str) -> ArrayString<N>
    requires { length text.now ≤ N }
    ensures { result.bytes ≡ text.now }
{
    match ArrayString::from(text) {
        Ok(string) => string,
        Err(_) => unreachable!(),
    }
}

/// The text of these bytes in an array that has room for it. It takes no memory.
pub fn text_of<const N: usize>(bytes: &[u8]) -> ArrayString<N>
    requires text { IsUtf8 bytes.now }
    requires room { length bytes.now ≤ N }
    ensures { result.bytes ≡ bytes.now }
{
    string_of(utf8_of(bytes))
}

/// The text that these bytes are.
pub fn utf8_of(bytes: &[u8]) -> &str
    requires { IsUtf8 bytes.now }
    ensures { result.now ≡ bytes.now }
{
    match str::from_utf8(bytes) {
        Ok(text) => text,
        Err(_) => unreachable!(),
    }
}
