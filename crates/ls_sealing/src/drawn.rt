//! Pieces of drawn bytes.
ghost use Rattle.std.specs.Prelude.{◌≡◌, ◌≤◌, ◌+◌, length};
ghost use Rattle.ls_sealing.specs.Draws.{piece};

/// The N bytes from a place on.
pub(crate) fn piece_at<const N: usize>(drawn: &[u8], at: usize) -> [u8; N]
    requires { at + N ≤ length drawn.now }
    ensures same { result ≡ piece at N drawn.now }
{
    let mut array = [0; N];
    array.copy_from_slice(&drawn[at..at + N]);
    array
}

/// So many bytes from a place on.
pub(crate) fn piece(drawn: &[u8], at: usize, len: usize) -> &[u8]
    requires { at + len ≤ length drawn.now }
    ensures same { result.now ≡ piece at len drawn.now }
    ensures size { length result.now ≡ len }
{
    &drawn[at..at + len]
}
