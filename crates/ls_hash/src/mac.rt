//! HMAC-SHA256 (FIPS 198-1) of a message that is taken piece by piece.
ghost use Rattle.std.specs.Prelude.{◌≡◌, ◌++◌, ℕ, List, []};
ghost use Rattle.ls_hash.specs.Hmac.{block_key, hmac_sha256, xor_each};

use crate::padding::padded;
use sha2::{Digest, Sha256};

/// The byte of the inner pad (FIPS 198-1, section 3).
const INNER_PAD: u8 = 0x36;

/// The byte of the outer pad (FIPS 198-1, section 3).
const OUTER_PAD: u8 = 0x5c;

/// HMAC-SHA256 of a message under a key, both of any length (FIPS 198-1, section 4).
pub fn hmac256(key: &[u8], message: &[u8]) -> [u8; 32]
    ensures mac { result ≡ hmac_sha256 key.now message.now }
{
    let mut mac = Mac::new(key);
    mac.update(message);
    mac.finalize()
}

/// HMAC-SHA256 of a message in two pieces, joined (FIPS 198-1, section 4).
pub fn hmac256_joined(key: &[u8], front: &[u8], back: &[u8]) -> [u8; 32]
    ensures mac { result ≡ hmac_sha256 key.now (front.now ++ back.now) }
{
    let mut mac = Mac::new(key);
    mac.update(front);
    mac.update(back);
    mac.finalize()
}

/// The key as a block of SHA-256 (FIPS 198-1, section 4, steps 1 to 3).
#[tactic(auto, unfolding(crate::specs::Hmac::block_key))]
fn block_key(key: &[u8]) -> [u8; 64]
    ensures { result ≡ block_key key.now }
{
    if key.len() > 64 {
        padded(&Sha256::digest(key))
    } else {
        padded(key)
    }
}

/// The block with each byte xor a pad's byte.
fn xor_each(pad: u8, block: &[u8; 64]) -> [u8; 64]
    ensures { result ≡ xor_each pad block.now }
{
    let mut out = *block;
    for x in out.iter_mut() {
        *x ^= pad;
    }
    out
}

/// A message under a key, as far as it was taken in.
#[derive(Drop)]
pub(crate) struct Mac {
    inner: Sha256,
    outer: Sha256,
}

impl Mac {
    ghost use Rattle.ls_hash.specs.Mac.{Macs};

    /// The empty message under this key.
    pub(crate) fn new(key: &[u8]) -> Mac
        ensures { Macs result key.now [] }
    {
        let block = block_key(key);
        Mac {
            inner: Sha256::new_with_prefix(&xor_each(INNER_PAD, &block)),
            outer: Sha256::new_with_prefix(&xor_each(OUTER_PAD, &block)),
        }
    }

    /// Adds a piece to the message.
    pub(crate) fn update(&mut self, piece: &[u8])
        ensures { (key m : List ℕ) → Macs self.old key m → Macs self.new key (m ++ piece.now) }
    {
        self.inner.update(piece);
    }

    /// HMAC-SHA256 of the message.
    #[tactic(auto, unfolding(crate::specs::Hmac::hmac_sha256))]
    pub(crate) fn finalize(self) -> [u8; 32]
        ensures { (key m : List ℕ) → Macs self key m → result ≡ hmac_sha256 key m }
    {
        let Mac { inner, mut outer } = self;
        outer.update(&inner.finalize());
        outer.finalize()
    }
}
