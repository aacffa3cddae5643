//! Lists of bytes that are the same.
ghost use Rattle.std.specs.Prelude.{◌≡◌, ◌↔◌, IsTrue};

/// Whether two lists of bytes are the same.
pub(crate) fn same_bytes(a: &[u8], b: &[u8]) -> bool
    ensures same { IsTrue result ↔ (a.now ≡ b.now) }
{
    a == b
}
