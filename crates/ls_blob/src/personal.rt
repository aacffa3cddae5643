//! Sealing and opening under the personalised hash of a key.
ghost use Rattle.std.specs.Prelude.{◌≡◌, ◌+◌, ◌^◌, ◌≤◌, ◌<◌, ◌↔◌, ◌⊎◌, List, ℕ, IfOk, length, take, Some, None};
ghost use Rattle.ls_bytes.specs.ByteLists.{AllAreBytes};
ghost use Rattle.ls_gcm.specs.Gcm.{HasWrongTag};
ghost use Rattle.ls_blob.specs.Personal.{personal_key, sealed_under, opened_under};

use ls_bytes::{Bytes, Memory};
use ls_gcm::{OpenFault, open, opened, seal};
use ls_hash::phash;
use std::alloc::Global;

// The front of a hash.
fn front(hash: &[u8; 64]) -> [u8; 32]
    ensures { result ≡ take 32 hash.now }
{
    let mut front = [0u8; 32];
    front.copy_from_slice(&hash[..32]);
    front
}

// The key of AES.
fn personal_key(key: &[u8], personal: &[u8]) -> [u8; 32]
    requires { length personal.now ≤ 128 }
    ensures { result ≡ personal_key key.now personal.now }
{
    front(&phash(personal, key))
}

/// Seals a text of at most 2^24 bytes under a key and a personalisation of at most 128 bytes: the
/// 12 bytes of the iv, the ciphertext, and a tag of 16 bytes. An iv may be used once under these
/// two.
pub fn seal_under(
    alloc: Global,
    key: &[u8],
    personal: &[u8],
    iv: &[u8; 12],
    plain: &[u8],
) -> Result<Bytes, Memory>
    requires personal { length personal.now ≤ 128 }
    requires plain { length plain.now ≤ 2 ^ 24 }
    ensures sealed { IfOk result
        (λ sealed. sealed ≡ sealed_under key.now personal.now iv.now plain.now) }
    ensures size { IfOk result (λ sealed. length sealed ≡ length plain.now + 28) }
{
    seal(alloc, &personal_key(key, personal), iv, plain)
}

/// Opens what was sealed under a key and a personalisation of at most 128 bytes.
pub fn open_under(
    alloc: Global,
    key: &[u8],
    personal: &[u8],
    sealed: &[u8],
) -> Result<Bytes, OpenFault>
    requires { length personal.now ≤ 128 }
    ensures opened { IfOk result
        (λ text. opened_under key.now personal.now sealed.now ≡ Some text) }
    ensures size { IfOk result (λ text. length text + 28 ≡ length sealed.now) }
    ensures short { (result ≡ Err OpenFault.Short) ↔ (length sealed.now < 28) }
    ensures tag { (result ≡ Err OpenFault.Tag)
        ↔ HasWrongTag (personal_key key.now personal.now) sealed.now }
    ensures refused { (opened_under key.now personal.now sealed.now ≡ None)
        ↔ ((result ≡ Err OpenFault.Short) ⊎ (result ≡ Err OpenFault.Tag)) }

    // What was sealed is opened.
    ensures back { (iv plain : List ℕ) → length iv ≡ 12
        → sealed.now ≡ sealed_under key.now personal.now iv plain
        → opened_under key.now personal.now sealed.now ≡ Some plain }
{
    open(alloc, &personal_key(key, personal), sealed)
}

/// What was sealed under a key and a personalisation of at most 128 bytes, and None where it doesn't
/// open.
pub fn opened_under(
    alloc: Global,
    key: &[u8],
    personal: &[u8],
    sealed: &[u8],
) -> Result<Option<Bytes>, Memory>
    requires { length personal.now ≤ 128 }
    ensures same { IfOk result (λ text. text ≡ opened_under key.now personal.now sealed.now) }
{
    opened(alloc, &personal_key(key, personal), sealed)
}

/// The law that what is sealed under a key and a personalisation opens under them, and has 28 bytes
/// more than the text. The call does nothing.
pub fn sealed_texts_open()
    ensures opens { (key personal iv plain : List ℕ) → length iv ≡ 12
        → opened_under key personal (sealed_under key personal iv plain) ≡ Some plain }
    ensures size { (key personal iv plain : List ℕ) → length iv ≡ 12
        → length (sealed_under key personal iv plain) ≡ length plain + 28 }
{}

/// The law that what is sealed under a key and a personalisation are bytes, where the iv and the
/// text are. The call does nothing.
pub fn sealed_texts_are_bytes()
    ensures bytes { (key personal iv plain : List ℕ) → AllAreBytes iv → AllAreBytes plain
        → AllAreBytes (sealed_under key personal iv plain) }
{}
