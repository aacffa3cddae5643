//! One list of bytes xor another, 32 bytes at a time.
ghost use Rattle.std.specs.Prelude.{◌≡◌, length};
ghost use Rattle.ls_bytes.specs.Joined.{xor};

use std::simd::u8x32;

/// `to` becomes `to` xor `from`, byte by byte. Both have the same length.
pub fn xor_into(to: &mut [u8], from: &[u8])
    requires lengths { length to.old ≡ length from.now }
    ensures xored { to.new ≡ xor to.old from.now }
{
    let whole = to.len() / 32;
    'vectors: for i in 0..whole {
        xor_vector(&mut to[32 * i..32 * i + 32], &from[32 * i..32 * i + 32]);
    }
    'rest: for i in 32 * whole..to.len() {
        to[i] ^= from[i];
    }
}

#[inline(always)]
fn xor_vector(to: &mut [u8], from: &[u8])
    requires to_len { length to.old ≡ 32 }
    requires from_len { length from.now ≡ 32 }
    ensures { to.new ≡ xor to.old from.now }
{
    let joined = u8x32::from_slice(to) ^ u8x32::from_slice(from);
    joined.copy_to_slice(to);
}
