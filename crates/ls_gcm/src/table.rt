//! The product with a fixed block, four bits at a time.
ghost use Rattle.std.specs.Prelude.{◌≡◌, ℕ, ◌<◌, bit_xor, slice_index};
ghost use Rattle.std.specs.Int.{w128, to_be_bytes};
ghost use Rattle.ls_gcm.specs.Blocks.{number, times_x, times_x4, product, product_of};

use std::marker::Model;

const REDUCTION: u128 = 0xe100_0000_0000_0000_0000_0000_0000_0000;

// What x ^ 4 makes of each four last bits, which fall off the end: the 16 leading bits of it.
#[rattlefmt::skip]
const REDUCED: [u16; 16] = [
    0x0000, 0x1c20, 0x3840, 0x2460, 0x7080, 0x6ca0, 0x48c0, 0x54e0,
    0xe100, 0xfd20, 0xd940, 0xc560, 0x9180, 0x8da0, 0xa9c0, 0xb5e0,
];

// A block times x.
#[tactic(auto, unfolding(crate::specs::Blocks::times_x))]
fn times_x(v: u128) -> u128
    ensures { result ≡ times_x v }
{
    if v % 2 == 0 {
        v >> 1
    } else {
        (v >> 1) ^ REDUCTION
    }
}

// A block times x ^ 4.
#[inline(always)]
fn times_x4(v: u128) -> u128
    ensures { result ≡ times_x4 v }
{
    (v >> 4) ^ ((REDUCED[(v % 16) as usize] as u128) << 112)
}

// A block times a polynomial of four bits, the highest of which is the coefficient of 1.
#[tactic(auto, unfolding(crate::specs::Blocks::product_of))]
fn multiple(n: u8, h: u128) -> u128
    requires { n < 16 }
    ensures { result ≡ product_of 4 n h }
{
    let mut z = 0u128;
    let mut v = h;
    'bits: for i in 0..4u8 {
        if (n >> (3 - i)) % 2 == 1 {
            z ^= v;
        }
        v = times_x(v);
    }
    z
}

// The sixteen multiples of h.
fn multiples(h: u128) -> [u128; 16]
    ensures { (n : ℕ) → n < 16 → slice_index result n ≡ product_of 4 n h }
{
    let mut table = [0u128; 16];
    'fill: for n in 0..16u8 {
        table[n as usize] = multiple(n, h);
    }
    table
}

// The product of x and the block whose multiples these are.
fn product_by(multiples: &[u128; 16], x: u128) -> u128
    ensures { (h : ℕ) → ((n : ℕ) → n < 16 → slice_index multiples.now n ≡ product_of 4 n h)
        → result ≡ product x h }
{
    let mut z = 0u128;
    'nibbles: for i in 0..32u32 {
        z = times_x4(z) ^ multiples[((x >> (4 * i)) % 16) as usize];
    }
    z
}

/// The sixteen multiples of a block H by the polynomials of four bits. Contracts see it as H, an
/// element of the field.
#[derive(Drop)]
pub struct HTable {
    multiples: [u128; 16],
}

impl Model for HTable {
    ghost use Rattle.std.specs.Prelude.{◌≡◌, ℕ, ◌<◌, slice_index};
    ghost use Rattle.ls_gcm.specs.Blocks.{product_of};

    ghost Value = { ℕ };

    ghost view = { λ t. slice_index t.multiples 8 };

    ghost invariant = { λ t. (n : ℕ) → n < 16
        → slice_index t.multiples n ≡ product_of 4 n (slice_index t.multiples 8) };
}

impl HTable {
    /// The table of a block.
    pub fn of(h: &[u8; 16]) -> HTable
        ensures same { result ≡ number h.now }
    {
        HTable {
            multiples: multiples(u128::from_be_bytes(*h)),
        }
    }

    /// The product of x and the block of the table.
    pub(crate) fn times(&self, x: u128) -> u128
        ensures same { result ≡ product x self.now }
    {
        product_by(&self.multiples, x)
    }
}

/// The block times the block of the table, in the field of SP 800-38D, 6.3.
pub fn times_h(table: &HTable, block: &[u8; 16]) -> [u8; 16]
    ensures same { result ≡ to_be_bytes w128 (product (number block.now) table.now) }
{
    table.times(u128::from_be_bytes(*block)).to_be_bytes()
}
