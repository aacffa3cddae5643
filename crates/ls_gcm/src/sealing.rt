//! Sealing: the iv, the ciphertext and the tag (SP 800-38D, 7.1).
ghost use Rattle.std.specs.Prelude.{◌≡◌, ◌+◌, ◌^◌, ◌≤◌, ◌++◌, List, ℕ, IfOk, length};
ghost use Rattle.ls_bytes.specs.ByteLists.{AllAreBytes};
ghost use Rattle.ls_gcm.specs.Gcm.{gcm_seal};

use crate::aes::Aes256;
use crate::counter::crypt;
use crate::hash::tag;
use ls_bytes::{Bytes, Memory};
use std::alloc::Global;

/// Seals at most 2^24 bytes: the 12 bytes of the iv, as many bytes of ciphertext as the plain text
/// has, and a tag of 16 bytes. An iv may be used once under a key.
#[tactic(auto, unfolding(crate::specs::Gcm::gcm_seal))]
pub fn seal(alloc: Global, key: &[u8; 32], iv: &[u8; 12], plain: &[u8]) -> Result<Bytes, Memory>
    requires { length plain.now ≤ 2 ^ 24 }
    ensures sealed { IfOk result (λ sealed. sealed ≡ gcm_seal key.now iv.now plain.now) }
    ensures size { IfOk result (λ sealed. length sealed ≡ length plain.now + 28) }
{
    let cipher = Aes256::new(key);
    let mut text = plain.to_vec(alloc)?;
    crypt(&cipher, iv, &mut text);
    let tag = tag(&cipher, iv, &text);
    let mut sealed = Vec::with_capacity(alloc, plain.len() + 28)?;
    sealed.extend_from_slice(iv)?;
    sealed.extend_from_slice(&text)?;
    sealed.extend_from_slice(&tag)?;
    Ok(Bytes::from(sealed))
}

/// The law that what is sealed are bytes, where the key, the iv and the text are. The call does
/// nothing.
pub fn what_is_sealed_are_bytes()
    ensures bytes { (key iv plain : List ℕ) → AllAreBytes key → AllAreBytes iv → AllAreBytes plain
        → AllAreBytes (gcm_seal key iv plain) }
{}
