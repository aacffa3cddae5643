//! Blocks that are filled up with zeros.
ghost use Rattle.std.specs.Prelude.{◌≡◌, ◌≤◌, length};
ghost use Rattle.ls_hash.specs.Padding.{padded};

/// These bytes, and then zeros.
pub(crate) fn padded<const N: usize>(bytes: &[u8]) -> [u8; N]
    requires { length bytes.now ≤ N }
    ensures { result ≡ padded N bytes.now }
{
    let mut block = [0; N];
    block[..bytes.len()].copy_from_slice(bytes);
    block
}
