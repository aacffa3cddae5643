//! The steps of Salsa20/8 (RFC 7914, section 3) on four words at a time.
ghost use Rattle.std.specs.Prelude.{◌≡◌, ℕ, ◌+◌, ◌%◌, ◌^◌, ◌<◌, slice_index, bit_xor};
ghost use Rattle.ls_scrypt.specs.Diagonals.{words_of};
ghost use Rattle.ls_scrypt.specs.Salsa.{add32, xor_turned, quarter, column_round, row_round, double_round};

use crate::diagonals::Diagonals;
use std::simd::u32x4;

/// The sums of words, with their carries dropped.
#[inline(always)]
pub(crate) fn added(x: u32x4, y: u32x4) -> u32x4
    ensures { (j : ℕ) → j < 4 → slice_index result j ≡ add32 (slice_index x j) (slice_index y j) }
{
    x + y
}

/// The words of `x` xor those of `y`.
#[inline(always)]
pub(crate) fn xored(x: u32x4, y: u32x4) -> u32x4
    ensures joined { (j : ℕ) → j < 4
        → slice_index result j ≡ bit_xor (slice_index x j) (slice_index y j) }
    ensures small { (j : ℕ) → slice_index x j < 2 ^ 32 }
{
    x ^ y
}

/// The columns and then the rows.
#[inline(always)]
pub(crate) fn double_round(x: Diagonals) -> Diagonals
    ensures { words_of result ≡ double_round (words_of x) }
{
    row_round(column_round(x))
}

/// The columns, each of which has one word in each diagonal, at the same place.
#[inline(always)]
fn column_round(x: Diagonals) -> Diagonals
    ensures { words_of result ≡ column_round (words_of x) }
{
    let (a, b, c, d) = quarter(x.a, x.b, x.c, x.d);
    Diagonals { a, b, c, d }
}

/// The rows.
#[inline(always)]
fn row_round(x: Diagonals) -> Diagonals
    ensures { words_of result ≡ row_round (words_of x) }
{
    row_quarters(x)
}

/// The steps on the rows, each of which begins in the diagonal `a`: the other diagonals are turned
/// so that its words stand at one place, and then back.
#[inline(always)]
fn row_quarters(x: Diagonals) -> Diagonals
    ensures { (j : ℕ) → j < 4
        → (
          slice_index result.a j,
          slice_index result.d ((j + 1) % 4),
          slice_index result.c ((j + 2) % 4),
          slice_index result.b ((j + 3) % 4),
        )
        ≡ quarter (slice_index x.a j) (slice_index x.d ((j + 1) % 4))
        (slice_index x.c ((j + 2) % 4)) (slice_index x.b ((j + 3) % 4)) }
{
    let (a, d, c, b) = quarter(x.a, turned_1(x.d), turned_2(x.c), turned_3(x.b));
    Diagonals {
        a,
        b: turned_1(b),
        c: turned_2(c),
        d: turned_3(d),
    }
}

/// The four steps on four words at a time.
#[inline(always)]
fn quarter(a: u32x4, b: u32x4, c: u32x4, d: u32x4) -> (u32x4, u32x4, u32x4, u32x4)
    ensures { (j : ℕ) → j < 4
        → (
          slice_index result.0 j,
          slice_index result.1 j,
          slice_index result.2 j,
          slice_index result.3 j,
        )
        ≡ quarter (slice_index a j) (slice_index b j) (slice_index c j) (slice_index d j) }
{
    let b = xor_turned(b, a, d, 7);
    let c = xor_turned(c, b, a, 9);
    let d = xor_turned(d, c, b, 13);
    let a = xor_turned(a, d, c, 18);
    (a, b, c, d)
}

#[inline(always)]
fn xor_turned(b: u32x4, x: u32x4, y: u32x4, k: u32) -> u32x4
    requires { (0 < k) × (k < 32) }
    ensures { (j : ℕ) → j < 4
        → slice_index result j
        ≡ xor_turned (slice_index b j) (slice_index x j) (slice_index y j) k }
{
    let sum = x + y;
    b ^ ((sum << u32x4::splat(k)) | (sum >> u32x4::splat(32 - k)))
}

#[inline(always)]
fn turned_1(v: u32x4) -> u32x4
    ensures { (j : ℕ) → j < 4 → slice_index result j ≡ slice_index v ((j + 1) % 4) }
{
    v.rotate_elements_left::<1>()
}

#[inline(always)]
fn turned_2(v: u32x4) -> u32x4
    ensures { (j : ℕ) → j < 4 → slice_index result j ≡ slice_index v ((j + 2) % 4) }
{
    v.rotate_elements_left::<2>()
}

#[inline(always)]
fn turned_3(v: u32x4) -> u32x4
    ensures { (j : ℕ) → j < 4 → slice_index result j ≡ slice_index v ((j + 3) % 4) }
{
    v.rotate_elements_left::<3>()
}
