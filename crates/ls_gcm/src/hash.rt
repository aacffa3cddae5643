//! GHASH of a ciphertext, and its tag (SP 800-38D, 6.4 and 7.1).
ghost use Rattle.std.specs.Prelude.{◌≡◌, ◌+◌, ◌-◌, ◌*◌, ◌<◌, ◌≤◌, ◌++◌, List, length, replicate};
ghost use Rattle.ls_gcm.specs.Gcm.{block, block_count, bit_lengths, ghash, hashed_text, gcm_tag};

use crate::aes::Aes256;
use crate::counter::counter;
use crate::table::HTable;
use crate::xor::xor_front;

// The bytes with zeros behind them.
fn padded<const N: usize>(bytes: &[u8]) -> [u8; N]
    requires { length bytes.now ≤ N }
    ensures { result ≡ bytes.now ++ replicate (N - length bytes.now) 0 }
{
    let mut out = [0u8; N];
    out[..bytes.len()].copy_from_slice(bytes);
    out
}

// Block i of a text, which may be cut.
fn block(text: &[u8], i: usize) -> &[u8]
    requires { 16 * i < length text.now }
    ensures value { result.now ≡ block text.now i }
    ensures len { length result.now ≤ 16 }
{
    let end = (16 * i + 16).min(text.len());
    &text[16 * i..end]
}

// The block of the lengths in bits.
fn bit_lengths(n: usize) -> [u8; 16]
    ensures { result ≡ bit_lengths n }
{
    let mut out = [0u8; 16];
    out[8..].copy_from_slice(&(n as u64).wrapping_mul(8).to_be_bytes());
    out
}

// GHASH of a ciphertext and its length.
#[tactic(auto, unfolding(crate::specs::Gcm::ghash))]
fn hash(table: &HTable, text: &[u8]) -> u128
    ensures { result ≡ ghash table.now (hashed_text text.now) (block_count (length text.now) + 1) }
{
    let count = text.len().div_ceil(16);
    let mut y = 0u128;
    'parts: for i in 0..count {
        y = table.times(y ^ u128::from_be_bytes(padded::<16>(block(text, i))));
    }
    table.times(y ^ u128::from_be_bytes(bit_lengths(text.len())))
}

/// The tag of a ciphertext.
#[tactic(auto, unfolding(crate::specs::Gcm::gcm_tag))]
pub(crate) fn tag(cipher: &Aes256, iv: &[u8; 12], text: &[u8]) -> [u8; 16]
    ensures { result ≡ gcm_tag cipher.now iv.now text.now }
{
    let table = HTable::of(&cipher.encrypt_block(&[0; 16]));
    let mut out = hash(&table, text).to_be_bytes();
    xor_front(&mut out, &cipher.encrypt_block(&counter(iv, 0)));
    out
}
