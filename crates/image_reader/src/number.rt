//! Big-endian numbers at fixed places.

ghost use Rattle.std.specs.Prelude.{◌≡◌, ◌+◌, ◌-◌, ◌*◌, ◌≤◌, length, take, drop};
ghost use Rattle.std.specs.Int.{w8, w16, w32, w64};
ghost use Rattle.image_reader.specs.Layout.{number_in};

/// What stands from a place on.
pub fn bytes_from(bytes: &[u8], at: usize) -> &[u8]
    requires { at ≤ length bytes.now }
    ensures rest { result.now ≡ drop at bytes.now }
    ensures len { length result.now + at ≡ length bytes.now }
{
    &bytes[at..]
}

/// What stands in front of the last `behind` bytes.
pub fn bytes_before(bytes: &[u8], behind: usize) -> &[u8]
    requires { behind ≤ length bytes.now }
    ensures { result.now ≡ take (length bytes.now - behind) bytes.now }
{
    &bytes[..bytes.len() - behind]
}

/// The byte at place `at`.
#[tactic(auto, unfolding(crate::specs::Layout::number_in))]
pub fn u8_in(bytes: &[u8], at: usize) -> u8
    requires { at + 1 ≤ length bytes.now }
    ensures { result ≡ number_in w8 at bytes.now }
{
    let field = &bytes[at..at + 1];
    field[0]
}

/// The number of two bytes at place `at`, the highest first.
#[tactic(auto, unfolding(crate::specs::Layout::number_in))]
pub fn u16_in(bytes: &[u8], at: usize) -> u16
    requires { at + 2 ≤ length bytes.now }
    ensures { result ≡ number_in w16 at bytes.now }
{
    let field = &bytes[at..at + 2];
    u16::from_be_bytes([field[0], field[1]])
}

/// The number of four bytes at place `at`, the highest first.
#[tactic(auto, unfolding(crate::specs::Layout::number_in))]
pub fn u32_in(bytes: &[u8], at: usize) -> u32
    requires { at + 4 ≤ length bytes.now }
    ensures { result ≡ number_in w32 at bytes.now }
{
    let field = &bytes[at..at + 4];
    u32::from_be_bytes([field[0], field[1], field[2], field[3]])
}

/// The number of eight bytes at place `at`, the highest first.
#[tactic(auto, unfolding(crate::specs::Layout::number_in))]
pub fn u64_in(bytes: &[u8], at: usize) -> u64
    requires { at + 8 ≤ length bytes.now }
    ensures { result ≡ number_in w64 at bytes.now }
{
    let field = &bytes[at..at + 8];
    u64::from_be_bytes([
        field[0], field[1], field[2], field[3], field[4], field[5], field[6], field[7],
    ])
}

/// The record at place `i` of a section of records of `size` bytes.
pub fn cell_at(section: &[u8], size: usize, i: usize) -> &[u8]
    requires { size * i + size ≤ length section.now }
    ensures cell { result.now ≡ take size (drop (size * i) section.now) }
    ensures len { length result.now ≡ size }
{
    &section[size * i..size * i + size]
}
