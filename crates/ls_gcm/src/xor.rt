//! Bytes xor bytes, in place.
ghost use Rattle.std.specs.Prelude.{◌≡◌, ◌≤◌, length};
ghost use Rattle.ls_bytes.specs.Joined.{xor};

/// Bytes, xor as many bytes of `from`, which may have more.
pub(crate) fn xor_front(to: &mut [u8], from: &[u8])
    requires { length to.old ≤ length from.now }
    ensures { to.new ≡ xor to.old from.now }
{
    'bytes: for i in 0..to.len() {
        to[i] ^= from[i];
    }
}
