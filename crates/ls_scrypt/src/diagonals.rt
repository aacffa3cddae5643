//! Sixteen words as four vectors, the diagonals of their square. A chain of blocks stays in this
//! form, so that only what is read and written is put in order.
ghost use Rattle.std.specs.Prelude.{◌≡◌, ◌<◌, ◌≤◌, ◌+◌, ◌*◌, ◌^◌, ℕ, length, bit_xor, slice_index};
ghost use Rattle.std.specs.Simd.Lanes.{zip2};
ghost use Rattle.ls_bytes.specs.Joined.{xor};
ghost use Rattle.ls_scrypt.specs.Salsa.{add32, word_at, words, bytes, double_rounds, salsa_words, salsa20_8};

use crate::rounds::{added, double_round, xored};
use std::simd::{u32x4, u32x16};

/// Words 0, 5, 10, 15; 4, 9, 14, 3; 8, 13, 2, 7; and 12, 1, 6, 11.
#[derive(Clone, Copy)]
pub(crate) struct Diagonals {
    pub(crate) a: u32x4,
    pub(crate) b: u32x4,
    pub(crate) c: u32x4,
    pub(crate) d: u32x4,
}

impl Diagonals {
    ghost use Rattle.ls_scrypt.specs.Diagonals.{words_of, bytes_of};

    /// The words of 64 bytes.
    #[inline(always)]
    #[tactic(auto, unfolding(crate::specs::Salsa::words))]
    pub(crate) fn load(block: &[u8]) -> Diagonals
        requires { length block.now ≡ 64 }
        ensures { words_of result ≡ words 16 block.now }
    {
        let w = |i: usize| word_at(block, 4 * i);
        Diagonals {
            a: u32x4::from_array([w(0), w(5), w(10), w(15)]),
            b: u32x4::from_array([w(4), w(9), w(14), w(3)]),
            c: u32x4::from_array([w(8), w(13), w(2), w(7)]),
            d: u32x4::from_array([w(12), w(1), w(6), w(11)]),
        }
    }

    /// Writes the 64 bytes of the words.
    #[inline(always)]
    pub(crate) fn store(self, to: &mut [u8])
        requires { length to.old ≡ 64 }
        ensures { to.new ≡ bytes_of self }
    {
        write_words(u32x16::from_array(self.in_order()), to);
    }

    /// The words with numbers 0 to 15.
    #[inline(always)]
    fn in_order(self) -> [u32; 16]
        ensures { result ≡ words_of self }
    {
        let [a0, a1, a2, a3] = self.a.to_array();
        let [b0, b1, b2, b3] = self.b.to_array();
        let [c0, c1, c2, c3] = self.c.to_array();
        let [d0, d1, d2, d3] = self.d.to_array();
        [
            a0, d1, c2, b3, b0, a1, d2, c3, c0, b1, a2, d3, d0, c1, b2, a3,
        ]
    }

    /// Salsa20/8 of these bytes xor those of a block: the chain's step.
    #[inline(always)]
    #[tactic(auto, unfolding(crate::specs::Salsa::salsa20_8))]
    pub(crate) fn chain(self, block: &[u8]) -> Diagonals
        requires { length block.now ≡ 64 }
        ensures { bytes_of result ≡ salsa20_8 (xor (bytes_of self) block.now) }
    {
        self.xor_block(block).salsa20_8()
    }

    /// These bytes xor those of a block.
    #[inline(always)]
    fn xor_block(self, block: &[u8]) -> Diagonals
        requires { length block.now ≡ 64 }
        ensures { words_of result ≡ words 16 (xor (bytes_of self) block.now) }
    {
        self.xor(Diagonals::load(block))
    }

    /// These words xor others.
    #[inline(always)]
    fn xor(self, other: Diagonals) -> Diagonals
        ensures words { words_of result ≡ zip2 bit_xor (words_of self) (words_of other) }
        ensures small { (i : ℕ) → slice_index (words_of self) i < 2 ^ 32 }
    {
        let Diagonals { a, b, c, d } = self;
        Diagonals {
            a: xored(a, other.a),
            b: xored(b, other.b),
            c: xored(c, other.c),
            d: xored(d, other.d),
        }
    }

    /// Salsa20/8 (RFC 7914, section 3).
    #[inline(always)]
    #[tactic(auto, unfolding(crate::specs::Salsa::salsa_words))]
    pub(crate) fn salsa20_8(self) -> Diagonals
        ensures { words_of result ≡ salsa_words (words_of self) }
    {
        self.rounds().add(self)
    }

    /// Eight rounds.
    #[inline(always)]
    fn rounds(self) -> Diagonals
        ensures { words_of result ≡ double_rounds 4 (words_of self) }
    {
        let once = double_round(self);
        let twice = double_round(once);
        let thrice = double_round(twice);
        double_round(thrice)
    }

    /// The sums with other words, with their carries dropped.
    #[inline(always)]
    fn add(self, other: Diagonals) -> Diagonals
        ensures { words_of result ≡ zip2 add32 (words_of self) (words_of other) }
    {
        Diagonals {
            a: added(self.a, other.a),
            b: added(self.b, other.b),
            c: added(self.c, other.c),
            d: added(self.d, other.d),
        }
    }
}

/// The word at byte `i`, low byte first.
#[inline(always)]
fn word_at(b: &[u8], i: usize) -> u32
    requires { i + 4 ≤ length b.now }
    ensures { result ≡ word_at b.now i }
{
    u32::from_le_bytes([b[i], b[i + 1], b[i + 2], b[i + 3]])
}

/// Writes the bytes of the words, low byte first.
#[inline(always)]
fn write_words(words: u32x16, to: &mut [u8])
    requires { length to.old ≡ 64 }
    ensures { to.new ≡ bytes 16 words }
{
    words.to_le_bytes().copy_to_slice(to);
}
