//! Opening of what was sealed (SP 800-38D, 7.2).
ghost use Rattle.std.specs.Prelude.{◌≡◌, ◌+◌, ◌-◌, ◌≤◌, ◌<◌, ◌↔◌, ◌⊎◌, List, ℕ, IfOk, IsTrue, length, Some, None};
ghost use Rattle.ls_gcm.specs.Gcm.{crypted, gcm_tag, gcm_seal, gcm_open, iv_of, body_of, tag_of, HasWrongTag};

use crate::aes::Aes256;
use crate::counter::crypt;
use crate::fault::OpenFault;
use crate::hash::tag;
use ls_bytes::{Bytes, Memory};
use std::alloc::Global;

// The iv of a sealed text.
fn iv_of(sealed: &[u8]) -> [u8; 12]
    requires { 28 ≤ length sealed.now }
    ensures { result ≡ iv_of sealed.now }
{
    let mut iv = [0u8; 12];
    iv.copy_from_slice(&sealed[..12]);
    iv
}

// The ciphertext of a sealed text.
fn body_of(sealed: &[u8]) -> &[u8]
    requires { 28 ≤ length sealed.now }
    ensures same { result.now ≡ body_of sealed.now }
    ensures size { length result.now + 28 ≡ length sealed.now }
{
    &sealed[12..sealed.len() - 16]
}

// Two lists of bytes are the same.
fn is_same(a: &[u8], b: &[u8]) -> bool
    ensures { IsTrue result ↔ (a.now ≡ b.now) }
{
    a == b
}

// The tag is that of the ciphertext.
fn has_right_tag(cipher: &Aes256, sealed: &[u8]) -> bool
    requires { 28 ≤ length sealed.now }
    ensures { IsTrue result
        ↔ (gcm_tag cipher.now (iv_of sealed.now) (body_of sealed.now) ≡ tag_of sealed.now) }
{
    let tag = tag(cipher, &iv_of(sealed), body_of(sealed));
    is_same(&tag, &sealed[sealed.len() - 16..])
}

// The plain text of a ciphertext.
fn decrypted(alloc: Global, cipher: &Aes256, sealed: &[u8]) -> Result<Bytes, Memory>
    requires { 28 ≤ length sealed.now }
    ensures same { IfOk result
        (λ text. text ≡ crypted cipher.now (iv_of sealed.now) (body_of sealed.now)) }
    ensures size { IfOk result (λ text. length text + 28 ≡ length sealed.now) }
{
    let mut text = body_of(sealed).to_vec(alloc)?;
    crypt(cipher, &iv_of(sealed), &mut text);
    Ok(Bytes::from(text))
}

/// The plain text of a sealed text: the iv of 12 bytes, the ciphertext and the tag of 16 bytes.
pub fn open(alloc: Global, key: &[u8; 32], sealed: &[u8]) -> Result<Bytes, OpenFault>
    ensures opened { IfOk result (λ text. gcm_open key.now sealed.now ≡ Some text) }
    ensures size { IfOk result (λ text. length text + 28 ≡ length sealed.now) }
    ensures short { (result ≡ Err OpenFault.Short) ↔ (length sealed.now < 28) }
    ensures tag { (result ≡ Err OpenFault.Tag) ↔ HasWrongTag key.now sealed.now }
    ensures refused { (gcm_open key.now sealed.now ≡ None)
        ↔ ((result ≡ Err OpenFault.Short) ⊎ (result ≡ Err OpenFault.Tag)) }

    // What was sealed is opened.
    ensures back { (iv plain : List ℕ) → length iv ≡ 12 → sealed.now ≡ gcm_seal key.now iv plain
        → gcm_open key.now sealed.now ≡ Some plain }
{
    if sealed.len() < 28 {
        return Err(OpenFault::Short);
    }
    let cipher = Aes256::new(key);
    if !has_right_tag(&cipher, sealed) {
        return Err(OpenFault::Tag);
    }
    Ok(decrypted(alloc, &cipher, sealed)?)
}

/// The plain text of a sealed text, and None where it doesn't open.
pub fn opened(alloc: Global, key: &[u8; 32], sealed: &[u8]) -> Result<Option<Bytes>, Memory>
    ensures same { IfOk result (λ text. text ≡ gcm_open key.now sealed.now) }
{
    match open(alloc, key, sealed) {
        Ok(text) => Ok(Some(text)),
        Err(OpenFault::Memory) => Err(Memory),
        Err(_) => Ok(None),
    }
}
