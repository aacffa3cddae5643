//! Texts that may be there.
ghost use Rattle.std.specs.Prelude.{◌≡◌, ◌↔◌, IsTrue, Some};

use ls_bytes::Bytes;

/// Whether the text is there and is this one.
pub(crate) fn is_text(text: &Option<Bytes>, expected: &[u8]) -> bool
    ensures same { IsTrue result ↔ (text.now ≡ Some expected.now) }
{
    match text {
        None => false,
        Some(text) => is_same(text.as_slice(), expected),
    }
}

/// Whether two lists of bytes are the same.
pub(crate) fn is_same(a: &[u8], b: &[u8]) -> bool
    ensures same { IsTrue result ↔ (a.now ≡ b.now) }
{
    a == b
}
