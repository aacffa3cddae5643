//! The plan that builds the protector of a credential.
ghost use Rattle.std.specs.Prelude.{◌≡◌, ◌≤◌, ◌<◌, ◌++◌, ◌∷◌, [], true, length, is_some, None, Some, IfOk, OnOk};
ghost use Rattle.ls_blob.specs.declared.kind.BlobKind.TheVariants.{Credential as OfCredential};
ghost use Rattle.ls_blob.specs.Personal.{sealed_under};
ghost use Rattle.ls_credential.specs.Counts.{metrics_of};
ghost use Rattle.ls_formats.specs.Contents.{pwd, pwd_bytes, metrics_bytes};
ghost use Rattle.ls_formats.specs.declared.part.FilePart.TheVariants.{SpBlob, Pwd, Metrics};
ghost use Rattle.ls_naming.specs.Named.{only_if, has_credential};
ghost use Rattle.ls_secret.specs.declared.personal.Personal.TheVariants.{PasswordMetrics};
ghost use Rattle.ls_secret.specs.Derivation.{subkey_of};
ghost use Rattle.ls_secret.specs.Subkeys.{subkey_bytes};
ghost use Rattle.ls_sealing.specs.Chain.{layered};
ghost use Rattle.ls_sealing.specs.Protectors.{credential as for_kind, is_enrolled};
ghost use Rattle.ls_sealing.specs.Draws.{piece, device_place, credential_draw};
ghost use Rattle.ls_sealing.specs.Draws.{credential_draw_size};
ghost use Rattle.ls_sealing.specs.Building.{blob_bytes, new_stretched, new_share};
ghost use Rattle.ls_sealing.specs.Building.{writing_actions, credential_writing};
ghost use Rattle.ls_sealing.specs.Pushing.{part_put, share_put};

use crate::chain::{discardable_share, has_credential, layered, value_share, weaver_key};
use crate::drawn::{piece, piece_at};
use crate::pushing::{Place, blob_file, push_devices, push_part, push_share};
use ls_blob::{BlobKind, seal_under};
use ls_board::Plan;
use ls_bytes::{Bytes, Memory, put_bytes};
use ls_credential::{Credential, Kind};
use ls_formats::{FilePart, MetricsFile, PwdData};
use ls_secret::{Personal, Secret};
use std::alloc::Global;

/// Where the value of the slot, or the discardable bytes, begin.
fn device_place(kind: Kind) -> usize
    ensures place { result ≡ device_place kind }
    ensures most { result ≤ 84 }
{
    if has_credential(kind) { 84 } else { 56 }
}

/// Whether the Gatekeeper is to have a record of its id.
fn is_enrolled(slot: Option<u32>, kind: Kind) -> bool
    ensures same { result ≡ is_enrolled (is_some slot) (for_kind kind) }
{
    match slot {
        None => has_credential(kind),
        Some(_) => false,
    }
}

/// The share of the slot's value, or without Weaver of the discardable bytes.
fn share(slot: Option<u32>, kind: Kind, drawn: &[u8]) -> [u8; 64]
    requires { length drawn.now ≡ credential_draw_size (is_some slot) kind }
    ensures same { result ≡ new_share slot (credential_draw kind drawn.now) }
{
    let at = device_place(kind);
    match slot {
        None => discardable_share(piece(drawn, at, 16384)),
        Some(_) => value_share(piece(drawn, at, 16)),
    }
}

/// The stretched text, and the share behind it.
fn joined(alloc: Global, stretched: &[u8; 32], share: &[u8; 64]) -> Result<Bytes, Memory>
    ensures same { IfOk result (λ secret. secret ≡ stretched.now ++ share.now) }
{
    let mut secret = Bytes::of(alloc, stretched)?;
    put_bytes(&mut secret, share)?;
    Ok(secret)
}

/// Puts the sealed secret.
fn push_blob(
    alloc: Global,
    plan: &mut Plan,
    place: &Place,
    secret: &Secret,
    protector: &[u8],
    drawn: &[u8],
) -> Result<(), Memory>
    requires id { 0 < place.now.id }
    requires drawn { 56 ≤ length drawn.now }
    ensures pushed { OnOk result (plan.new ≡ plan.old
        ++ part_put place.now.user place.now.id SpBlob
        (blob_bytes secret.now.version OfCredential
        (layered (piece 0 32 drawn.now) protector.now (piece 32 12 drawn.now)
        (piece 44 12 drawn.now) secret.now.sp)) ∷ []) }
{
    let content = layered(
        alloc,
        &piece_at(drawn, 0),
        protector,
        &piece_at(drawn, 32),
        &piece_at(drawn, 44),
        secret.sp_text(),
    )?;
    let bytes = blob_file(alloc, secret.version(), BlobKind::Credential, content)?;
    push_part(alloc, plan, place, FilePart::SpBlob, bytes)
}

/// The usual cost and a salt of 16 bytes.
#[tactic(auto, using(crate::proofs::ByteLemmas::whole_piece))]
fn plain_pwd(kind: Kind, salt: &[u8]) -> PwdData
    requires kind { has_credential kind ≡ true }
    requires salt { length salt.now ≡ 16 }
    ensures same { result ≡ pwd kind 11 3 1 salt.now None }
{
    PwdData {
        kind,
        log_n: 11,
        log_r: 3,
        log_p: 1,
        salt: piece_at(salt, 0),
        handle: None,
    }
}

/// The usual cost, a salt of 16 bytes and a handle of 49.
#[tactic(auto, using(crate::proofs::ByteLemmas::whole_piece))]
fn signed_pwd(kind: Kind, salt: &[u8], handle: &[u8]) -> PwdData
    requires kind { has_credential kind ≡ true }
    requires salt { length salt.now ≡ 16 }
    requires handle { length handle.now ≡ 49 }
    ensures same { result ≡ pwd kind 11 3 1 salt.now (Some handle.now) }
{
    PwdData {
        kind,
        log_n: 11,
        log_r: 3,
        log_p: 1,
        salt: piece_at(salt, 0),
        handle: Some(piece_at(handle, 0)),
    }
}

/// Puts kind, cost, salt and handle, where there is a credential.
fn push_pwd(
    alloc: Global,
    plan: &mut Plan,
    place: &Place,
    kind: Kind,
    drawn: &[u8],
    handle: &Option<[u8; 49]>,
) -> Result<(), Memory>
    requires id { 0 < place.now.id }
    requires drawn { 72 ≤ length drawn.now }
    ensures pushed { OnOk result (plan.new ≡ plan.old ++ only_if (has_credential kind)
        (part_put place.now.user place.now.id Pwd
        (pwd_bytes (pwd kind 11 3 1 (piece 56 16 drawn.now) handle.now)) ∷ [])) }
{
    if !has_credential(kind) {
        return Ok(());
    }
    let salt = piece(drawn, 56, 16);
    let pwd = match handle {
        None => plain_pwd(kind, salt),
        Some(handle) => signed_pwd(kind, salt, handle),
    };
    let bytes = pwd.print(alloc)?;
    push_part(alloc, plan, place, FilePart::Pwd, bytes)
}

/// Puts what is counted of the credential, sealed, where there is one.
fn push_metrics(
    alloc: Global,
    plan: &mut Plan,
    place: &Place,
    credential: &Credential,
    secret: &Secret,
    drawn: &[u8],
) -> Result<(), Memory>
    requires id { 0 < place.now.id }
    requires drawn { has_credential credential.now.kind ≡ true → 84 ≤ length drawn.now }
    ensures pushed { OnOk result (plan.new ≡ plan.old
        ++ only_if (has_credential credential.now.kind)
        (part_put place.now.user place.now.id Metrics
        (sealed_under (subkey_bytes (subkey_of secret.now PasswordMetrics)) []
        (piece 72 12 drawn.now) (metrics_bytes (metrics_of credential.now))) ∷ [])) }
{
    if !has_credential(credential.kind) {
        return Ok(());
    }
    let counts = MetricsFile {
        metrics: credential.metrics(),
    };
    let counts = counts.print(alloc)?;
    let key = secret.subkey(Personal::PasswordMetrics);
    let bytes = seal_under(
        alloc,
        key.as_slice(),
        b"",
        &piece_at(drawn, 72),
        counts.as_slice(),
    )?;
    push_part(alloc, plan, place, FilePart::Metrics, bytes)
}

/// Puts the file that names the slot, or without Weaver the discardable bytes.
fn push_device_file(
    alloc: Global,
    plan: &mut Plan,
    place: &Place,
    kind: Kind,
    drawn: &[u8],
) -> Result<(), Memory>
    requires id { 0 < place.now.id }
    requires drawn { length drawn.now ≡ credential_draw_size (is_some place.now.slot) kind }
    ensures pushed { OnOk result (plan.new ≡ plan.old
        ++ share_put place.now.user place.now.id place.now.slot
        (piece (device_place kind) 16384 drawn.now) ∷ []) }
{
    match place.slot {
        None => push_share(alloc, plan, place, piece(drawn, device_place(kind), 16384)),
        Some(_) => push_share(alloc, plan, place, b""),
    }
}

/// Puts the files in their order.
fn push_files(
    alloc: Global,
    plan: &mut Plan,
    place: &Place,
    credential: &Credential,
    secret: &Secret,
    drawn: &[u8],
    protector: &[u8],
    handle: &Option<[u8; 49]>,
) -> Result<(), Memory>
    requires id { 0 < place.now.id }
    requires drawn { length drawn.now ≡
        credential_draw_size (is_some place.now.slot) credential.now.kind }
    ensures pushed { OnOk result (plan.new ≡ plan.old
        ++ part_put place.now.user place.now.id SpBlob
        (blob_bytes secret.now.version OfCredential
        (layered (piece 0 32 drawn.now) protector.now (piece 32 12 drawn.now)
        (piece 44 12 drawn.now) secret.now.sp)) ∷ []
        ++ only_if (has_credential credential.now.kind)
        (part_put place.now.user place.now.id Pwd
        (pwd_bytes (pwd credential.now.kind 11 3 1 (piece 56 16 drawn.now) handle.now)) ∷ [])
        ++ share_put place.now.user place.now.id place.now.slot
        (piece (device_place credential.now.kind) 16384 drawn.now) ∷ []
        ++ only_if (has_credential credential.now.kind)
        (part_put place.now.user place.now.id Metrics
        (sealed_under (subkey_bytes (subkey_of secret.now PasswordMetrics)) []
        (piece 72 12 drawn.now) (metrics_bytes (metrics_of credential.now))) ∷ [])) }
{
    push_blob(alloc, plan, place, secret, protector, drawn)?;
    push_pwd(alloc, plan, place, credential.kind, drawn, handle)?;
    push_device_file(alloc, plan, place, credential.kind, drawn)?;
    push_metrics(alloc, plan, place, credential, secret, drawn)
}

/// The plan that builds the protector of a credential, where this is its stretched text, and this
/// the handle of its `pwd` file. The drawn bytes are those behind the protector's id.
pub fn credential_plan(
    alloc: Global,
    place: &Place,
    credential: &Credential,
    secret: &Secret,
    drawn: &[u8],
    stretched: &[u8; 32],
    handle: &Option<[u8; 49]>,
) -> Result<Plan, Memory>
    requires id { 0 < place.now.id }
    requires drawn { length drawn.now ≡
        credential_draw_size (is_some place.now.slot) credential.now.kind }
    requires stretched { stretched.now ≡
        new_stretched credential.now (credential_draw credential.now.kind drawn.now) }
    ensures built { IfOk result (λ plan. plan ≡ writing_actions
        (record {
          user = place.now.user;
          id = place.now.id;
          purpose = for_kind credential.now.kind;
        })
        place.now.slot (credential_writing place.now.slot credential.now secret.now
        (credential_draw credential.now.kind drawn.now) handle.now)) }
{
    let kind = credential.kind;
    let enrolled = is_enrolled(place.slot, kind);
    let key = piece_at(drawn, 0);
    let value = piece_at(drawn, device_place(kind));
    let protector = joined(alloc, stretched, &share(place.slot, kind, drawn))?;
    let protector = protector.as_slice();
    let mut plan = Plan::new(alloc);
    push_devices(
        &mut plan,
        place,
        enrolled,
        key,
        weaver_key(stretched),
        value,
    )?;
    push_files(
        alloc, &mut plan, place, credential, secret, drawn, protector, handle,
    )?;
    Ok(plan)
}
