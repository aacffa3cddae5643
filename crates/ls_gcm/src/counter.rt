//! The counter blocks, and a text under the stream of their encryptions (SP 800-38D, 6.5).
ghost use Rattle.std.specs.Prelude.{◌≡◌, ◌+◌, ◌*◌, ◌%◌, ◌^◌, ◌<◌, ◌≤◌, List, length};
ghost use Rattle.ls_gcm.specs.Gcm.{block, counter, crypted};

use crate::aes::Aes256;
use crate::xor::xor_front;

/// The n-th block after the first counter block.
pub(crate) fn counter(iv: &[u8; 12], n: u64) -> [u8; 16]
    requires { n < 2 ^ 63 }
    ensures { result ≡ counter iv.now n }
{
    let number = ((n + 1) % 0x1_0000_0000) as u32;
    let mut out = [0u8; 16];
    out[..12].copy_from_slice(iv);
    out[12..].copy_from_slice(&number.to_be_bytes());
    out
}

/// A text, encrypted or decrypted in place.
pub(crate) fn crypt(cipher: &Aes256, iv: &[u8; 12], text: &mut [u8])
    ensures { text.new ≡ crypted cipher.now iv.now text.old }
{
    let count = text.len().div_ceil(16);
    'parts: for i in 0..count {
        let stream = cipher.encrypt_block(&counter(iv, i as u64 + 1));
        let end = (16 * i + 16).min(text.len());
        xor_front(&mut text[16 * i..end], &stream);
    }
}
