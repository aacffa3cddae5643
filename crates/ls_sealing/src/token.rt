//! The plan that builds the protector of a token.
ghost use Rattle.std.specs.Prelude.{◌≡◌, ◌≤◌, ◌<◌, ◌++◌, ◌∷◌, [], ℕ, length, replicate, is_some, Some, IfOk, OnOk};
ghost use Rattle.ls_blob.specs.declared.kind.BlobKind.TheVariants.{StrongToken};
ghost use Rattle.ls_formats.specs.Contents.{slot_bytes};
ghost use Rattle.ls_formats.specs.declared.part.FilePart.TheVariants.{SpBlob, Secdis, Weaver};
ghost use Rattle.ls_sealing.specs.Chain.{layered, discardable_share, sealed_discardable};
ghost use Rattle.ls_sealing.specs.Protectors.{token as for_token};
ghost use Rattle.ls_sealing.specs.Draws.{piece, token_draw, token_draw_size};
ghost use Rattle.ls_sealing.specs.Building.{blob_bytes, discardable_file, writing_actions};
ghost use Rattle.ls_sealing.specs.Building.{token_writing};
ghost use Rattle.ls_sealing.specs.Pushing.{part_put, slot_put};

use crate::chain::{discardable_share, layered};
use crate::drawn::{piece, piece_at};
use crate::pushing::{Place, blob_file, push_devices, push_part};
use ls_blob::{BlobKind, seal_under};
use ls_board::Plan;
use ls_bytes::{Bytes, Memory, put_bytes};
use ls_formats::{FilePart, SlotFile};
use std::alloc::Global;

/// The value of the slot, where there is one.
fn value(slot: Option<u32>, drawn: &[u8]) -> [u8; 16]
    requires { length drawn.now ≡ token_draw_size (is_some slot) }
    ensures same { (n : ℕ) → slot ≡ Some n → result ≡ piece 16440 16 drawn.now }
{
    match slot {
        None => [0; 16],
        Some(_) => piece_at(drawn, 16440),
    }
}

/// The token, and the share of the discardable bytes behind it.
fn joined(alloc: Global, token: &[u8], drawn: &[u8]) -> Result<Bytes, Memory>
    requires { 16440 ≤ length drawn.now }
    ensures same { IfOk result (λ secret. secret ≡
        token.now ++ discardable_share (piece 56 16384 drawn.now)) }
{
    let mut secret = Bytes::of(alloc, token)?;
    put_bytes(&mut secret, &discardable_share(piece(drawn, 56, 16384)))?;
    Ok(secret)
}

/// Puts the sealed half of a secret.
fn push_half(
    alloc: Global,
    plan: &mut Plan,
    place: &Place,
    version: u8,
    p0: &[u8; 32],
    protector: &[u8],
    drawn: &[u8],
) -> Result<(), Memory>
    requires id { 0 < place.now.id }
    requires version { (2 ≤ version) × (version ≤ 3) }
    requires drawn { 56 ≤ length drawn.now }
    ensures pushed { OnOk result (plan.new ≡ plan.old
        ++ part_put place.now.user place.now.id SpBlob (blob_bytes version StrongToken
        (layered (piece 0 32 drawn.now) protector.now (piece 32 12 drawn.now)
        (piece 44 12 drawn.now) p0.now)) ∷ []) }
{
    let content = layered(
        alloc,
        &piece_at(drawn, 0),
        protector,
        &piece_at(drawn, 32),
        &piece_at(drawn, 44),
        p0,
    )?;
    let bytes = blob_file(alloc, version, BlobKind::StrongToken, content)?;
    push_part(alloc, plan, place, FilePart::SpBlob, bytes)
}

/// The discardable bytes, sealed under the value of the slot.
fn sealed_file(alloc: Global, drawn: &[u8]) -> Result<Bytes, Memory>
    requires { length drawn.now ≡ 16468 }
    ensures sealed { IfOk result (λ file. file ≡ sealed_discardable
        (piece 16440 16 drawn.now) (piece 16456 12 drawn.now) (piece 56 16384 drawn.now)) }
{
    let value = piece_at::<16>(drawn, 16440);
    let iv = piece_at(drawn, 16456);
    let bytes = piece(drawn, 56, 16384);
    seal_under(alloc, &value, b"weaver-token", &iv, bytes)
}

/// Puts the discardable bytes, which with Weaver are sealed.
#[tactic(auto, unfolding(crate::specs::Building::discardable_file))]
fn push_discardable(
    alloc: Global,
    plan: &mut Plan,
    place: &Place,
    drawn: &[u8],
) -> Result<(), Memory>
    requires id { 0 < place.now.id }
    requires drawn { length drawn.now ≡ token_draw_size (is_some place.now.slot) }
    ensures pushed { OnOk result (plan.new ≡ plan.old
        ++ part_put place.now.user place.now.id Secdis
        (discardable_file place.now.slot (token_draw drawn.now)) ∷ []) }
{
    match place.slot {
        None => {
            let bytes = Bytes::of(alloc, piece(drawn, 56, 16384))?;
            push_part(alloc, plan, place, FilePart::Secdis, bytes)
        }
        Some(_) => {
            let bytes = sealed_file(alloc, drawn)?;
            push_part(alloc, plan, place, FilePart::Secdis, bytes)
        }
    }
}

/// Puts the file that names the slot, where there is one.
fn push_slot_file(alloc: Global, plan: &mut Plan, place: &Place) -> Result<(), Memory>
    requires id { 0 < place.now.id }
    ensures pushed { OnOk result
        (plan.new ≡ plan.old ++ slot_put place.now.user place.now.id place.now.slot) }
{
    match place.slot {
        None => Ok(()),
        Some(slot) => {
            let bytes = SlotFile { slot }.print(alloc)?;
            push_part(alloc, plan, place, FilePart::Weaver, bytes)
        }
    }
}

/// The plan that builds the protector of a token: it seals the first half of a secret of this
/// version, 2 or 3.
pub fn token_plan(
    alloc: Global,
    place: &Place,
    token: &[u8],
    version: u8,
    p0: &[u8; 32],
    drawn: &[u8],
) -> Result<Plan, Memory>
    requires id { 0 < place.now.id }
    requires version { (2 ≤ version) × (version ≤ 3) }
    requires drawn { length drawn.now ≡ token_draw_size (is_some place.now.slot) }
    ensures built { IfOk result (λ plan. plan ≡ writing_actions
        (record { user = place.now.user; id = place.now.id; purpose = for_token })
        place.now.slot
        (token_writing place.now.slot token.now version p0.now (token_draw drawn.now))) }
{
    let key = piece_at(drawn, 0);
    let protector = joined(alloc, token, drawn)?;
    let protector = protector.as_slice();
    let mut plan = Plan::new(alloc);
    push_devices(
        &mut plan,
        place,
        false,
        key,
        [0; 16],
        value(place.slot, drawn),
    )?;
    push_half(alloc, &mut plan, place, version, p0, protector, drawn)?;
    push_discardable(alloc, &mut plan, place, drawn)?;
    push_slot_file(alloc, &mut plan, place)?;
    Ok(plan)
}
