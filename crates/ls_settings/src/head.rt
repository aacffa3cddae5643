//! The head of a settings file, and which of the two is current.
ghost use Rattle.std.specs.Prelude.{◌≡◌, Some};
ghost use Rattle.ls_naming.specs.Current.{is_open, base_of, current_side};

use crate::actions::OPEN;
use byteorder::{BigEndian, ByteOrder};
use ls_bytes::Bytes;
use ls_formats::Side;

fn gate_is_open(bytes: &[u8]) -> bool
    ensures same { result ≡ is_open (Some bytes.now) }
{
    match bytes {
        [] => false,
        [gate, ..] => *gate == OPEN,
    }
}

/// Whether the gate of a file is open. That of an absent or empty file isn't.
pub(crate) fn is_open(file: &Option<Bytes>) -> bool
    ensures same { result ≡ is_open file.now }
{
    match file {
        None => false,
        Some(bytes) => gate_is_open(bytes.as_slice()),
    }
}

/// The sequence number in the head, 0 where the bytes are too few.
pub(crate) fn base_in(bytes: &[u8]) -> u64
    ensures same { result ≡ base_of (Some bytes.now) }
{
    if bytes.len() < 9 {
        0
    } else {
        BigEndian::read_u64(&bytes[1..])
    }
}

/// The sequence number in the head, 0 where it isn't there whole.
fn base_of(file: &Option<Bytes>) -> u64
    ensures same { result ≡ base_of file.now }
{
    match file {
        None => 0,
        Some(bytes) => base_in(bytes.as_slice()),
    }
}

/// The open file with the greater sequence number in its head, the first at a tie.
pub(crate) fn current_side(first: &Option<Bytes>, second: &Option<Bytes>) -> Option<Side>
    ensures same { result ≡ current_side first.now second.now }
{
    if !is_open(first) {
        if is_open(second) {
            Some(Side::Second)
        } else {
            None
        }
    } else if is_open(second) && base_of(first) < base_of(second) {
        Some(Side::Second)
    } else {
        Some(Side::First)
    }
}
