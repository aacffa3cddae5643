//! The two halves of which a secret is made are kept for tokens.
ghost use Rattle.std.specs.Prelude.{◌≡◌, ◌≤◌, length, IfOk};
ghost use Rattle.ls_enrolling.specs.Enrolling.{block_at, half_files};

use crate::drawn::{first_half, half_iv, second_half};
use ls_board::Plan;
use ls_bytes::{Bytes, Memory};
use ls_retiring::put_escrow_plan;
use ls_secret::Secret;
use std::alloc::Global;

/// The plan that puts the halves of a user who may have tokens: the first one sealed under the secret,
/// and the second one. Without escrow nothing is put.
pub(crate) fn halves_plan(
    alloc: Global,
    user: u32,
    escrow: bool,
    secret: &Secret,
    drawn: &[u8],
) -> Result<Plan, Memory>
    requires drawn { block_at escrow ≤ length drawn.now }
    ensures same { IfOk result (λ plan. plan ≡ half_files user escrow secret.now drawn.now) }
{
    if !escrow {
        return Ok(Plan::new(alloc));
    }
    let e0 = secret.e0(alloc, &first_half(drawn), &half_iv(drawn))?;
    let p1 = Bytes::of(alloc, &second_half(drawn))?;
    put_escrow_plan(alloc, user, e0, p1)
}
