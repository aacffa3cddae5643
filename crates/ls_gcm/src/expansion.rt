//! The round words of a key (FIPS 197, 5.2), 60 words of four bytes in one array.
ghost use Rattle.std.specs.Prelude.{◌≡◌, ◌+◌, ◌*◌, ◌<◌, List, length, take, drop};
ghost use Rattle.std.specs.Int.{w32, to_be_bytes};
ghost use Rattle.ls_bytes.specs.Joined.{xor};
ghost use Rattle.ls_gcm.specs.Aes.{word, key_step, expanded, round_key};

use crate::byte::sub;

// The round constant of each multiple of 8.
const RCON: [u8; 8] = [0, 0x01, 0x02, 0x04, 0x08, 0x10, 0x20, 0x40];

// Word i.
fn word(w: &[u8; 240], i: usize) -> [u8; 4]
    requires { i < 60 }
    ensures { result ≡ word w.now i }
{
    let mut out = [0u8; 4];
    out.copy_from_slice(&w[4 * i..4 * i + 4]);
    out
}

// What is added to word i - 8, from the word t before word i.
fn key_step(t: [u8; 4], i: usize) -> [u8; 4]
    requires { i < 60 }
    ensures { result ≡ key_step t i }
{
    let [a, b, c, d] = t;
    if i % 8 == 0 {
        [sub(b) ^ RCON[i / 8], sub(c), sub(d), sub(a)]
    } else if i % 8 == 4 {
        [sub(a), sub(b), sub(c), sub(d)]
    } else {
        t
    }
}

// Word n + 8.
fn next_word(w: &[u8; 240], n: usize) -> [u8; 4]
    requires { n < 52 }
    ensures { result ≡ xor (word w.now n) (key_step (word w.now (n + 7)) (n + 8)) }
{
    let [a, b, c, d] = word(w, n);
    let [e, f, g, h] = key_step(word(w, n + 7), n + 8);
    [a ^ e, b ^ f, c ^ g, d ^ h]
}

/// The round words of a key.
#[tactic(auto, unfolding(crate::specs::Aes::expanded))]
pub(crate) fn expanded(key: &[u8; 32]) -> [u8; 240]
    ensures { result ≡ expanded key.now 52 }
{
    let mut w = [0u8; 240];
    w[..32].copy_from_slice(key);
    'words: for n in 0..52 {
        let next = next_word(&w, n);
        w[4 * n + 32..4 * n + 36].copy_from_slice(&next);
    }
    w
}

/// The words of round i.
pub(crate) fn round_key(w: &[u8; 240], i: usize) -> &[u8]
    requires { i < 15 }
    ensures value { result.now ≡ round_key w.now i }
    ensures len { length result.now ≡ 16 }
{
    &w[16 * i..16 * i + 16]
}

/// Word i of the words of a round, as a number.
#[inline(always)]
pub(crate) fn word_number(key: &[u8], i: usize) -> u32
    requires len { length key.now ≡ 16 }
    requires place { i < 4 }
    ensures { to_be_bytes w32 result ≡ word key.now i }
{
    let at = 4 * i;
    u32::from_be_bytes([key[at], key[at + 1], key[at + 2], key[at + 3]])
}
