//! PBKDF2 over HMAC-SHA256 with one iteration (RFC 8018, section 5.2).
ghost use Rattle.std.specs.Prelude.{◌≡◌, ◌<◌, ◌≤◌, ◌^◌, length, IfOk};
ghost use Rattle.ls_hash.specs.Pbkdf2.{pbkdf2_block, pbkdf2_one};

use crate::mac::Mac;
use ls_bytes::{Bytes, Memory};
use std::alloc::{AllocError, Global};

/// Block `number` of the derived key, counted from 1.
#[tactic(auto, unfolding(crate::specs::Pbkdf2::pbkdf2_block))]
fn pbkdf2_block(password: &[u8], salt: &[u8], number: u32) -> [u8; 32]
    ensures { result ≡ pbkdf2_block password.now salt.now number }
{
    let mut mac = Mac::new(password);
    mac.update(salt);
    mac.update(&number.to_be_bytes());
    mac.finalize()
}

/// Fills `out`, of fewer than 2^31 bytes, with the key that a password and a salt give.
pub fn pbkdf2_fill(password: &[u8], salt: &[u8], out: &mut [u8])
    requires { length out.old < 2 ^ 31 }
    ensures filled { out.new ≡ pbkdf2_one password.now salt.now (length out.old) }
{
    let whole = out.len() / 32;
    'whole_blocks: for i in 0..whole {
        out[32 * i..32 * i + 32].copy_from_slice(&pbkdf2_block(password, salt, i as u32 + 1));
    }
    let rest = out.len() - 32 * whole;
    if rest > 0 {
        let last = pbkdf2_block(password, salt, whole as u32 + 1);
        out[32 * whole..].copy_from_slice(&last[..rest]);
    }
}

/// A list of zero bytes.
fn zeros(alloc: Global, len: usize) -> Result<Vec<u8>, AllocError>
    ensures { IfOk result (λ v. length v.items ≡ len) }
{
    vec![in alloc; 0; len]
}

/// The key of `len` bytes, 1 to 16,384, that a password and a salt give.
pub fn pbkdf2_once(alloc: Global, password: &[u8], salt: &[u8], len: u32) -> Result<Bytes, Memory>
    requires { (1 ≤ len) × (len ≤ 16384) }
    ensures key { IfOk result (λ key. key ≡ pbkdf2_one password.now salt.now len) }
{
    let mut key = zeros(alloc, len as usize)?;
    pbkdf2_fill(password, salt, &mut key);
    Ok(Bytes::from(key))
}
