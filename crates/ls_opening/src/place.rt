//! Places of faults.
ghost use Rattle.std.specs.Prelude.{◌≡◌, ◌==◌, if◌then◌else◌, slice_index, Some, None};
ghost use Rattle.ls_standing.specs.Opening.{first_of, fails, number_at};

use crate::number::byte_at;
use byteorder::{BigEndian, ByteOrder};

/// The lesser of two places, where there is one.
pub(crate) fn first_of(first: Option<u32>, second: Option<u32>) -> Option<u32>
    ensures same { result ≡ first_of first second }
{
    match (first, second) {
        (None, second) => second,
        (first, None) => first,
        (Some(first), Some(second)) => Some(first.min(second)),
    }
}

/// The place, where so many bytes from it on are there and aren't right.
pub(crate) fn unless_right(bytes: &[u8], at: u32, size: u32, right: bool) -> Option<u32>
    ensures same { result ≡ (if fails bytes.now (record { at = at; size = size; right = right })
        then Some at else None) }
{
    if bytes.len() < at as usize + size as usize || right {
        None
    } else {
        Some(at)
    }
}

/// The place, where the byte there isn't this one.
pub(crate) fn unless_byte(bytes: &[u8], at: u32, byte: u8) -> Option<u32>
    ensures same { result ≡ (if fails bytes.now
        (record { at = at; size = 1; right = slice_index bytes.now at == byte })
        then Some at else None) }
{
    unless_right(bytes, at, 1, byte_at(bytes, at as usize) == byte)
}

/// The place, where the number of eight bytes there isn't this one.
pub(crate) fn unless_id(bytes: &[u8], at: u32, id: u64) -> Option<u32>
    ensures same { result ≡ (if fails bytes.now
        (record { at = at; size = 8; right = number_at bytes.now at 8 == id })
        then Some at else None) }
{
    let start = at as usize;
    if bytes.len() < start + 8 {
        return None;
    }
    unless_right(bytes, at, 8, BigEndian::read_u64(&bytes[start..]) == id)
}
