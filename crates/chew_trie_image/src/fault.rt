/// The first faulty place of bytes that are no image.
#[derive(Clone, Copy, Debug, PartialEq, Eq)]
pub struct ImageFault {
    /// An offset in bytes: where the faulty field begins, or where the bytes should end or do.
    pub place: u64,
}
