//! AES-256 of one block (FIPS 197, 5.1).
ghost use Rattle.std.specs.Prelude.{◌≡◌, length, bit_xor};
ghost use Rattle.ls_bytes.specs.Joined.{xor};
ghost use Rattle.ls_gcm.specs.Aes.{column_bytes, sub_bytes, shift_rows, full_round, encrypted};

use crate::byte::{column, sub};
use crate::expansion::{expanded, round_key, word_number};
use crate::xor::xor_front;
use std::marker::Model;

// Sixteen bytes and the words of a round.
fn added(s: &[u8; 16], key: &[u8]) -> [u8; 16]
    requires { length key.now ≡ 16 }
    ensures { result ≡ xor s.now key.now }
{
    let mut out = *s;
    xor_front(&mut out, key);
    out
}

// The S-box on each byte.
fn sub_bytes(s: &[u8; 16]) -> [u8; 16]
    ensures { result ≡ sub_bytes s.now }
{
    let mut out = *s;
    for x in out.iter_mut() {
        *x = sub(*x);
    }
    out
}

// Row r turned left by r.
#[tactic(auto, unfolding(crate::specs::Aes::shift_rows))]
fn shift_rows(s: &[u8; 16]) -> [u8; 16]
    ensures { result ≡ shift_rows s.now }
{
    [
        s[0], s[5], s[10], s[15], s[4], s[9], s[14], s[3], s[8], s[13], s[2], s[7], s[12], s[1],
        s[6], s[11],
    ]
}

// The columns of a block, each as a number.
fn columns(block: &[u8; 16]) -> [u32; 4]
    ensures { column_bytes result ≡ block.now }
{
    [
        word_number(block, 0),
        word_number(block, 1),
        word_number(block, 2),
        word_number(block, 3),
    ]
}

// The bytes of four columns.
fn column_bytes(s: &[u32; 4]) -> [u8; 16]
    ensures { result ≡ column_bytes s.now }
{
    let [a0, a1, a2, a3] = s[0].to_be_bytes();
    let [b0, b1, b2, b3] = s[1].to_be_bytes();
    let [c0, c1, c2, c3] = s[2].to_be_bytes();
    let [d0, d1, d2, d3] = s[3].to_be_bytes();
    [
        a0, a1, a2, a3, b0, b1, b2, b3, c0, c1, c2, c3, d0, d1, d2, d3,
    ]
}

// A round that isn't the last.
#[inline(always)]
fn full_round(s: &[u32; 4], key: &[u8]) -> [u32; 4]
    requires { length key.now ≡ 16 }
    ensures { column_bytes result ≡ full_round (column_bytes s.now) key.now }
{
    [
        column(s[0], s[1], s[2], s[3], word_number(key, 0)),
        column(s[1], s[2], s[3], s[0], word_number(key, 1)),
        column(s[2], s[3], s[0], s[1], word_number(key, 2)),
        column(s[3], s[0], s[1], s[2], word_number(key, 3)),
    ]
}

// The last round, which mixes no columns.
fn last_round(s: &[u8; 16], key: &[u8]) -> [u8; 16]
    requires { length key.now ≡ 16 }
    ensures { result ≡ xor (shift_rows (sub_bytes s.now)) key.now }
{
    added(&shift_rows(&sub_bytes(s)), key)
}

// One block under the round words.
#[tactic(auto, unfolding(crate::specs::Aes::rounds, crate::specs::Aes::encrypted))]
fn encrypted(w: &[u8; 240], b: &[u8; 16]) -> [u8; 16]
    ensures { result ≡ encrypted w.now b.now }
{
    let mut s = columns(&added(b, round_key(w, 0)));
    'rounds: for n in 0..13 {
        s = full_round(&s, round_key(w, n + 1));
    }
    last_round(&column_bytes(&s), round_key(w, 14))
}

/// AES-256 under one key. Contracts see it as the 32 bytes of the key.
#[derive(Drop)]
pub struct Aes256 {
    words: [u8; 240],
}

impl Model for Aes256 {
    ghost use Rattle.std.specs.Prelude.{◌≡◌, List, ℕ, take};
    ghost use Rattle.ls_gcm.specs.Aes.{expanded};

    ghost Value = { List ℕ };

    ghost view = { λ a. take 32 a.words };

    ghost invariant = { λ a. a.words ≡ expanded (take 32 a.words) 52 };
}

impl Aes256 {
    ghost use Rattle.ls_gcm.specs.Aes.{aes256};

    /// AES-256 under this key.
    pub fn new(key: &[u8; 32]) -> Aes256
        ensures same { result ≡ key.now }
    {
        Aes256 {
            words: expanded(key),
        }
    }

    /// The block, encrypted.
    #[tactic(auto, unfolding(crate::specs::Aes::aes256))]
    pub fn encrypt_block(&self, b: &[u8; 16]) -> [u8; 16]
        ensures same { result ≡ aes256 self.now b.now }
    {
        encrypted(&self.words, b)
    }
}
