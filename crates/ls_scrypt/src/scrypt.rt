//! scrypt (RFC 7914, section 6).
ghost use Rattle.std.specs.Prelude.{◌≡◌, ◌*◌, ◌%◌, ◌^◌, ◌<◌, ◌≤◌, length, IfOk};
ghost use Rattle.ls_scrypt.specs.Scrypt.{mixed_parts, scrypt};

use crate::ro_mix::ro_mix;
use ls_bytes::Memory;
use ls_hash::pbkdf2_fill;
use std::alloc::{AllocError, Global};

/// What a key costs. N, r and p of RFC 7914, section 2, are 2 to these powers.
#[derive(Clone, Copy, Debug, PartialEq, Eq)]
pub struct Cost {
    /// 1 to 14. The table has N rows of 128 r bytes.
    pub log_n: u8,
    /// 0 to 4.
    pub log_r: u8,
    /// 0 to 3.
    pub log_p: u8,
}

/// The key of 32 bytes that a password and a salt give by scrypt at a cost. All memory is had
/// before any block is mixed.
pub fn stretch(alloc: Global, password: &[u8], salt: &[u8], cost: Cost) -> Result<[u8; 32], Memory>
    requires log_n { (1 ≤ cost.log_n) × (cost.log_n ≤ 14) }
    requires log_r { cost.log_r ≤ 4 }
    requires log_p { cost.log_p ≤ 3 }
    ensures key { IfOk result (λ key. key
        ≡ scrypt password.now salt.now (2 ^ cost.log_n) (2 ^ cost.log_r) (2 ^ cost.log_p)) }
{
    let n = power(cost.log_n);
    let r = power(cost.log_r);
    let p = power(cost.log_p);
    Ok(derive(alloc, password, salt, n, r, p)?)
}

/// 2 to a power.
fn power(log: u8) -> usize
    requires { log < 32 }
    ensures { result ≡ 2 ^ log }
{
    1 << log
}

/// scrypt with N = n.
#[tactic(auto, unfolding(crate::specs::Scrypt::scrypt))]
fn derive(
    alloc: Global,
    password: &[u8],
    salt: &[u8],
    n: usize,
    r: usize,
    p: usize,
) -> Result<[u8; 32], AllocError>
    requires n { (1 ≤ n) × (n ≤ 16384) }
    requires even { n % 2 ≡ 0 }
    requires r { (1 ≤ r) × (r ≤ 16) }
    requires p { (1 ≤ p) × (p ≤ 8) }
    ensures { IfOk result (λ key. key ≡ scrypt password.now salt.now n r p) }
{
    let k = 128 * r;
    let mut v = zeros(alloc, k * n)?;
    let mut y = zeros(alloc, k)?;
    let mut b = zeros(alloc, k * p)?;
    pbkdf2_fill(password, salt, &mut b);
    mix_parts(r, n, p, &mut b, &mut y, &mut v);
    let mut key = [0; 32];
    pbkdf2_fill(password, &b, &mut key);
    Ok(key)
}

/// A list of zero bytes.
fn zeros(alloc: Global, len: usize) -> Result<Vec<u8>, AllocError>
    ensures { IfOk result (λ v. length v.items ≡ len) }
{
    vec![in alloc; 0; len]
}

/// scryptROMix of each of the p parts of `b`, in place.
fn mix_parts(r: usize, n: usize, p: usize, b: &mut [u8], y: &mut [u8], v: &mut [u8])
    requires some { (1 ≤ r) × (1 ≤ n) }
    requires even { n % 2 ≡ 0 }
    requires b_len { length b.old ≡ 128 * r * p }
    requires y_len { length y.old ≡ 128 * r }
    requires v_len { length v.old ≡ 128 * r * n }
    ensures { b.new ≡ mixed_parts r n b.old p }
{
    let k = 128 * r;
    'parts: for i in 0..p {
        ro_mix(r, n, &mut b[k * i..k * i + k], y, v);
    }
}
