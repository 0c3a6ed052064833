ghost use Rattle.std.specs.Prelude.{◌≡◌, ◌+◌, ◌≤◌, length};
ghost use Rattle.chew_spec_image.specs.Fields.{u16_at, u32_at, u64_at};

/// The number in two bytes from a place on, the low byte first.
pub(crate) fn u16_at(bytes: &[u8], place: usize) -> u16
    requires { place + 2 ≤ length bytes.now }
    ensures { result ≡ u16_at bytes.now place }
{
    let part = &bytes[place..place + 2];
    u16::from_le_bytes([part[0], part[1]])
}

/// The number in four bytes.
pub(crate) fn u32_at(bytes: &[u8], place: usize) -> u32
    requires { place + 4 ≤ length bytes.now }
    ensures { result ≡ u32_at bytes.now place }
{
    let part = &bytes[place..place + 4];
    u32::from_le_bytes([part[0], part[1], part[2], part[3]])
}

/// The number in eight bytes.
pub(crate) fn u64_at(bytes: &[u8], place: usize) -> u64
    requires { place + 8 ≤ length bytes.now }
    ensures { result ≡ u64_at bytes.now place }
{
    let part = &bytes[place..place + 8];
    u64::from_le_bytes([
        part[0], part[1], part[2], part[3], part[4], part[5], part[6], part[7],
    ])
}
