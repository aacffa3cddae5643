//! The draft of a token's protector.
ghost use Rattle.std.specs.Prelude.{◌≡◌, ◌≤◌, ◌<◌, ℕ, List, [], true, length, is_some, IfOk, IfSome};
ghost use Rattle.ls_board.specs.Reach.{AllTouchOnly};
ghost use Rattle.ls_record.specs.Rows.{is_odd};
ghost use Rattle.ls_sealing.specs.Building.{for_token};
ghost use Rattle.ls_sealing.specs.Draws.{token_draw_size};
ghost use Rattle.ls_protector.specs.Drafts.{drafted, MayBeAsked};
ghost use Rattle.ls_protector.specs.Parts.{reach_of_parts};

use ls_bytes::Memory;
use ls_protector::{Draft, parts_for_token};
use ls_sealing::{Place, token_plan};
use std::alloc::Global;

/// The draft of the protector at a place.
fn draft_at(
    alloc: Global,
    place: &Place,
    p0: &[u8; 32],
    version: u8,
    token: &[u8],
    drawn: &[u8],
) -> Result<Draft, Memory>
    requires id { 0 < place.now.id }
    requires version { (2 ≤ version) × (version ≤ 3) }
    requires drawn { length drawn.now ≡ token_draw_size (is_some place.now.slot) }
    ensures same { IfOk result (λ draft. draft ≡ drafted place.now.user place.now.id
        place.now.slot (for_token token.now version p0.now) drawn.now []) }
{
    let plan = token_plan(alloc, place, token, version, p0, drawn)?;
    let parts = parts_for_token(alloc, place)?;
    Ok(Draft::of(parts, plan))
}

/// The draft of a new protector that seals the first half of a secret of this version, 2 or 3, for
/// the bytes of a token, by the drawn bytes: 16,440, and 28 more where a slot is given. It does no
/// action, and asks no device.
pub fn draft_token(
    alloc: Global,
    user: u32,
    id: u64,
    slot: Option<u32>,
    p0: &[u8; 32],
    version: u8,
    token: &[u8],
    drawn: &[u8],
) -> Result<Draft, Memory>
    requires id { is_odd id ≡ true }
    requires version { (2 ≤ version) × (version ≤ 3) }
    requires drawn { length drawn.now ≡ token_draw_size (is_some slot) }
    // Whatever the key of the Gatekeeper is.
    ensures drafts { IfOk result (λ draft. (gk_key : List ℕ)
        → draft ≡ drafted user id slot (for_token token.now version p0.now) drawn.now gk_key) }
    ensures touches { IfOk result (λ draft. AllTouchOnly (reach_of_parts draft.parts) draft.plan) }
    ensures asked { IfOk result (λ draft. (slots : ℕ)
        → IfSome slot (λ n. n < slots) → MayBeAsked slots draft.plan) }
{
    let place = Place { user, id, slot };
    let draft = draft_at(alloc, &place, p0, version, token, drawn)?;
    Ok(draft)
}
