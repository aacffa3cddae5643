//! scryptROMix (RFC 7914, section 5).
ghost use Rattle.std.specs.Prelude.{◌≡◌, ℕ, ◌+◌, ◌-◌, ◌*◌, ◌%◌, ◌<◌, ◌≤◌, List, length, take};
ghost use Rattle.ls_bytes.specs.Joined.{xor};
ghost use Rattle.ls_scrypt.specs.BlockMix.{part, block_mix};
ghost use Rattle.ls_scrypt.specs.RoMix.{v_at, integerify, ro_mix};

use crate::block_mix::block_mix;
use crate::xor::xor_into;

/// scryptROMix of the 128r bytes of `x` with N = n, in place; N is even. `y` is room for as many
/// bytes, and `v` for the table of N times as many.
pub(crate) fn ro_mix(r: usize, n: usize, x: &mut [u8], y: &mut [u8], v: &mut [u8])
    requires some { (1 ≤ r) × (1 ≤ n) }
    requires even { n % 2 ≡ 0 }
    requires x_len { length x.old ≡ 128 * r }
    requires y_len { length y.old ≡ 128 * r }
    requires v_len { length v.old ≡ 128 * r * n }
    ensures { x.new ≡ ro_mix r n x.old }
{
    fill_table(r, n, x, v);
    mix_by_table(r, n, x, y, v);
}

/// The first loop: the first row of the table is x, each other is the row before it mixed, and x
/// becomes the last one mixed.
fn fill_table(r: usize, n: usize, x: &mut [u8], v: &mut [u8])
    requires some { (1 ≤ r) × (1 ≤ n) }
    requires x_len { length x.old ≡ 128 * r }
    requires v_len { length v.old ≡ 128 * r * n }
    ensures x_after { x.new ≡ v_at r x.old n }
    ensures table { (j : ℕ) → j < n → part (128 * r) v.new j ≡ v_at r x.old j }
{
    v[..128 * r].copy_from_slice(x);
    'rows: for i in 0..n - 1 {
        mix_row(r, i, v);
    }
    block_mix(r, row(128 * r, n, v, n - 1), x);
}

/// The row behind row `i` becomes row `i` mixed.
fn mix_row(r: usize, i: usize, v: &mut [u8])
    requires some { 1 ≤ r }
    requires within { 128 * r * (i + 2) ≤ length v.old }
    ensures mixed { part (128 * r) v.new (i + 1) ≡ block_mix r (part (128 * r) v.old i) }
    ensures front { take (128 * r * (i + 1)) v.new ≡ take (128 * r * (i + 1)) v.old }
{
    let k = 128 * r;
    let (done, rest) = v.split_at_mut(k * (i + 1));
    block_mix(r, &done[k * i..], &mut rest[..k]);
}

/// The second loop: x is xored with a row that it chooses, and mixed, two turns at a time.
#[tactic(auto, unfolding(crate::specs::RoMix::mixed, crate::specs::RoMix::ro_mix))]
fn mix_by_table(r: usize, n: usize, x: &mut [u8], y: &mut [u8], v: &[u8])
    requires some { (1 ≤ r) × (1 ≤ n) }
    requires even { n % 2 ≡ 0 }
    requires x_len { length x.old ≡ 128 * r }
    requires y_len { length y.old ≡ 128 * r }
    requires v_len { length v.now ≡ 128 * r * n }
    ensures { (first : List ℕ) → x.old ≡ v_at r first n
        → ((j : ℕ) → j < n → part (128 * r) v.now j ≡ v_at r first j)
        → x.new ≡ ro_mix r n first }
{
    'turns: for _pair in 0..n / 2 {
        turn(r, n, x, y, v);
        turn(r, n, y, x, v);
    }
}

/// One turn: x is xored with the row that it chooses, and mixed into y.
fn turn(r: usize, n: usize, x: &mut [u8], y: &mut [u8], v: &[u8])
    requires some { (1 ≤ r) × (1 ≤ n) }
    requires x_len { length x.old ≡ 128 * r }
    requires y_len { length y.old ≡ 128 * r }
    requires v_len { length v.now ≡ 128 * r * n }
    ensures chosen { integerify r x.old % n < n }
    ensures mixed { y.new
        ≡ block_mix r (xor x.old (part (128 * r) v.now (integerify r x.old % n))) }
{
    let j = chosen_row(r, n, x);
    xor_into(x, row(128 * r, n, v, j));
    block_mix(r, x, y);
}

/// Integerify modulo n.
fn chosen_row(r: usize, n: usize, x: &[u8]) -> usize
    requires some { (1 ≤ r) × (1 ≤ n) }
    requires len { length x.now ≡ 128 * r }
    ensures value { result ≡ integerify r x.now % n }
    ensures below { result < n }
{
    let mut low = [0; 8];
    low.copy_from_slice(&x[128 * r - 64..128 * r - 56]);
    (u64::from_le_bytes(low) % n as u64) as usize
}

/// Row `i` of a table of n rows of k bytes.
#[inline(always)]
fn row(k: usize, n: usize, v: &[u8], i: usize) -> &[u8]
    requires place { i < n }
    requires len { length v.now ≡ k * n }
    ensures value { result.now ≡ part k v.now i }
    ensures len { length result.now ≡ k }
{
    &v[k * i..k * i + k]
}
