//! scryptBlockMix (RFC 7914, section 4).
ghost use Rattle.std.specs.Prelude.{◌≡◌, ◌+◌, ◌*◌, ◌≤◌, length};
ghost use Rattle.ls_scrypt.specs.BlockMix.{block, evens, odds, block_mix};

use crate::diagonals::Diagonals;

/// Writes scryptBlockMix of the 2r blocks of `b`, of 64 bytes each, to `out`.
#[tactic(auto, unfolding(crate::specs::BlockMix::block_mix))]
pub(crate) fn block_mix(r: usize, b: &[u8], out: &mut [u8])
    requires some { 1 ≤ r }
    requires blocks { length b.now ≡ 128 * r }
    requires out_len { length out.old ≡ 128 * r }
    ensures { out.new ≡ block_mix r b.now }
{
    let (even, odd) = out.split_at_mut(64 * r);
    mix_pairs(r, b, even, odd);
}

/// Writes the mixed blocks with even numbers to one half, and those with odd numbers to the other.
#[tactic(auto, unfolding(crate::specs::BlockMix::x_before))]
fn mix_pairs(r: usize, b: &[u8], even: &mut [u8], odd: &mut [u8])
    requires some { 1 ≤ r }
    requires blocks { length b.now ≡ 128 * r }
    requires even_len { length even.old ≡ 64 * r }
    requires odd_len { length odd.old ≡ 64 * r }
    ensures even { even.new ≡ evens r b.now r }
    ensures odd { odd.new ≡ odds r b.now r }
{
    let mut x = Diagonals::load(block(b, 2 * r - 1));
    'pairs: for i in 0..r {
        x = x.chain(block(b, 2 * i));
        x.store(&mut even[64 * i..64 * i + 64]);
        x = x.chain(block(b, 2 * i + 1));
        x.store(&mut odd[64 * i..64 * i + 64]);
    }
}

/// Block `i`.
#[inline(always)]
fn block(b: &[u8], i: usize) -> &[u8]
    requires { 64 * (i + 1) ≤ length b.now }
    ensures value { result.now ≡ block b.now i }
    ensures len { length result.now ≡ 64 }
{
    &b[64 * i..64 * i + 64]
}
