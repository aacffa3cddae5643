//! Bytes at a place.
ghost use Rattle.std.specs.Prelude.{◌≡◌, slice_index};

/// The byte at a place, 0 past the end.
pub(crate) fn byte_at(bytes: &[u8], at: usize) -> u8
    ensures same { result ≡ slice_index bytes.now at }
{
    match bytes.get(at) {
        Some(byte) => *byte,
        None => 0,
    }
}

/// The version that a blob says: its first byte, 0 where it has none.
pub fn blob_version(blob: &[u8]) -> u8
    ensures same { result ≡ slice_index blob.now 0 }
{
    byte_at(blob, 0)
}
