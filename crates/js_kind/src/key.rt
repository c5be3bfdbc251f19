//! The key of a name: its first eight bytes in one number.

ghost use Rattle.std.specs.Prelude.{◌≡◌, ◌≤◌, ◌<◌, ◌+◌, length, map};
ghost use Rattle.std.specs.List.{slice_range, range_with_len};
ghost use Rattle.js_kind.specs.Keywords.{key_of, mask};

/// The masks that leave so many of the eight bytes of a number, the least first.
static MASKS: [u64; 12] = [
    0,
    0xFF,
    0xFFFF,
    0xFF_FFFF,
    0xFFFF_FFFF,
    0xFF_FFFF_FFFF,
    0xFFFF_FFFF_FFFF,
    0xFF_FFFF_FFFF_FFFF,
    0xFFFF_FFFF_FFFF_FFFF,
    0xFFFF_FFFF_FFFF_FFFF,
    0xFFFF_FFFF_FFFF_FFFF,
    0xFFFF_FFFF_FFFF_FFFF,
];

/// The table of masks.
#[inline(always)]
fn masks() -> &'static [u64; 12]
    ensures { result.now ≡ map mask (range_with_len 0 12) }
{
    &MASKS
}

/// The key of a text of eight bytes or more.
#[inline(always)]
fn key_of_many(bytes: &[u8]) -> u64
    requires { 8 ≤ length bytes.now }
    ensures { result ≡ key_of bytes.now }
{
    u64::from_le_bytes([
        bytes[0], bytes[1], bytes[2], bytes[3], bytes[4], bytes[5], bytes[6], bytes[7],
    ])
}

/// The key of a text of fewer than eight bytes.
#[inline(never)]
fn key_of_few(bytes: &[u8]) -> u64
    requires { length bytes.now < 8 }
    ensures { result ≡ key_of bytes.now }
{
    let mut key = 0;
    let mut left = bytes.len();
    while left > 0 {
        left -= 1;
        key = key * 256 + bytes[left] as u64;
    }
    key
}

/// The key of a text.
#[inline(always)]
fn key_of(bytes: &[u8]) -> u64
    ensures { result ≡ key_of bytes.now }
{
    if bytes.len() < 8 {
        return key_of_few(bytes);
    }
    key_of_many(bytes)
}

/// The key of a name of at most 11 bytes, by the bytes from its start on, the name's and those behind it.
#[inline(always)]
pub(crate) fn key_between(text: &[u8], from: usize, to: usize) -> u64
    requires ordered { from ≤ to }
    requires within { to ≤ length text.now }
    requires short { to ≤ from + 11 }
    ensures { result ≡ key_of (slice_range text.now from to) }
{
    key_of(&text[from..]) & masks()[to - from]
}
