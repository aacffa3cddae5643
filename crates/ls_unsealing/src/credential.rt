//! Whether a secret is sealed for a credential.
ghost use Rattle.std.specs.Prelude.{◌≡◌, ◌↔◌, ◌++◌, length, not, is_some, IsTrue, None, Some, IfOk, IfSome, IfNone, IsSome, IsSomeAnd, MatchBool, MatchOption};
ghost use Rattle.ls_blob.specs.declared.kind.BlobKind.TheVariants.{Credential as OfCredential};
ghost use Rattle.ls_formats.specs.Contents.{Pwd, IsPwd, pwd_of};
ghost use Rattle.ls_formats.specs.declared.part.FilePart.TheVariants.{Pwd as PwdPart, Secdis};
ghost use Rattle.ls_board.specs.Gatekeeper.{signed, salt_of};
ghost use Rattle.ls_sealing.specs.Chain.{stretched, stretched_default, weaver_key, value_share};
ghost use Rattle.ls_sealing.specs.Seals.{Seals, HasKind, IsPwdFile, Accepts, IsHandleOf};
ghost use Rattle.ls_sealing.specs.Seals.{discardable_size, slot_value, credential_share, HasBlob, blob_text};
ghost use Rattle.ls_secret.specs.Secrets.{IsSecret};
ghost use Rattle.ls_unsealing.specs.Parts.{held_by};

use crate::opening::opened_blob;
use crate::parts::HeldParts;
use crate::text::is_text;
use byteorder::{BigEndian, ByteOrder};
use ls_blob::BlobKind;
use ls_bytes::{Bytes, Memory, joined};
use ls_credential::{Credential, Kind};
use ls_formats::PwdData;
use ls_gatekeeper::Gatekeeper;
use ls_sealing::{
    discardable_share, gatekeeper_password, stretched_by, stretched_default, value_share,
    weaver_key,
};
use ls_secret::Secret;
use ls_weaver::Slot;
use std::alloc::Global;

// ---- the `pwd` file

/// Whether a `pwd` file says this kind, and has a handle exactly without Weaver.
fn says(pwd: &PwdData, weaver: bool, kind: Kind) -> bool
    ensures same { IsTrue result
        ↔ ((pwd.now.kind ≡ kind) × (is_some pwd.now.handle ≡ not weaver)) }
{
    pwd.kind == kind && pwd.handle.is_some() != weaver
}

/// What a `pwd` file says, where it is one of this kind, with a handle exactly without Weaver.
fn stored_pwd(file: &[u8], weaver: bool, kind: Kind) -> Option<PwdData>
    ensures found { IfSome result
        (λ pwd. (pwd ≡ pwd_of file.now) × IsPwdFile weaver kind file.now) }
    ensures none { IfNone result (¬ IsPwdFile weaver kind file.now) }
{
    let Ok(pwd) = PwdData::parse(file) else {
        return None;
    };
    if !says(&pwd, weaver, kind) {
        return None;
    }
    Some(pwd)
}

// ---- the devices

/// Whether the slot is there and has the key of a stretched text.
fn slot_accepts(slot: &Option<Slot>, stretched: &[u8; 32]) -> bool
    ensures same { IsTrue result
        ↔ IsSomeAnd slot.now (λ slot. slot.key ≡ weaver_key stretched.now) }
{
    match slot {
        None => false,
        Some(slot) => slot.key == weaver_key(stretched),
    }
}

/// The salt that stands in a handle.
fn salt_of(handle: &[u8; 49]) -> u64
    ensures same { result ≡ salt_of handle.now }
{
    BigEndian::read_u64(&handle[9..])
}

/// The handle that a device signs for this id, salt and password.
fn signed(alloc: Global, device: &[u8; 32], id: u64, salt: u64, password: &[u8]) -> [u8; 49]
    ensures same { result ≡ signed device.now id salt password.now }
{
    Gatekeeper::new(alloc, *device).sign(id, salt, password)
}

/// Whether the handle is there and is the one of a stretched text.
fn handle_accepts(
    alloc: Global,
    device: &[u8; 32],
    id: u64,
    handle: &Option<[u8; 49]>,
    stretched: &[u8; 32],
) -> bool
    ensures same { IsTrue result
        ↔ IsSomeAnd handle.now (IsHandleOf device.now id stretched.now) }
{
    match handle {
        None => false,
        Some(handle) => {
            let password = gatekeeper_password(stretched);
            *handle == signed(alloc, device, id, salt_of(handle), &password)
        }
    }
}

/// The default text, where there is no credential and the devices accept it.
fn accepted_default(held: &HeldParts, kind: Kind) -> Option<[u8; 32]>
    requires pwd { held.now.files.pwd ≡ None }
    ensures found { IfSome result (λ text. (kind ≡ Kind.Empty) × (text ≡ stretched_default)
        × MatchBool held.now.weaver
        (IsSomeAnd held.now.slot (λ slot. slot.key ≡ weaver_key text)) (Unit {0})) }
    ensures none { IfNone result (kind ≡ Kind.Empty → ¬ MatchBool held.now.weaver
        (IsSomeAnd held.now.slot (λ slot. slot.key ≡ weaver_key stretched_default)) (Unit {0})) }
{
    let text = stretched_default();
    if kind != Kind::Empty || (held.weaver && !slot_accepts(&held.slot, &text)) {
        return None;
    }
    Some(text)
}

/// Whether the devices accept a stretched text, where there is a `pwd` file with this handle.
fn accepts(
    alloc: Global,
    id: u64,
    held: &HeldParts,
    handle: &Option<[u8; 49]>,
    stretched: &[u8; 32],
) -> bool
    ensures same { IsTrue result ↔ MatchBool held.now.weaver
        (IsSomeAnd held.now.slot (λ slot. slot.key ≡ weaver_key stretched.now))
        (IsSome held.now.counter
        × IsSomeAnd handle.now (IsHandleOf held.now.device id stretched.now)) }
{
    if held.weaver {
        slot_accepts(&held.slot, stretched)
    } else {
        held.counter.is_some() && handle_accepts(alloc, &held.device, id, handle, stretched)
    }
}

/// The stretched text of a credential, where what is held is of its kind and the devices accept it.
fn accepted(
    alloc: Global,
    id: u64,
    held: &HeldParts,
    credential: &Credential,
) -> Result<Option<[u8; 32]>, Memory>
    ensures found { IfOk result (λ found. IfSome found (λ text.
        HasKind (held_by held.now) credential.now.kind
        × (text ≡ stretched held.now.files.pwd credential.now.text)
        × Accepts id (held_by held.now) text)) }
    ensures none { IfOk result (λ found. IfNone found
        (HasKind (held_by held.now) credential.now.kind → ¬ Accepts id (held_by held.now)
        (stretched held.now.files.pwd credential.now.text))) }
{
    let Some(file) = &held.files.pwd else {
        return Ok(accepted_default(held, credential.kind));
    };
    let Some(pwd) = stored_pwd(file.as_slice(), held.weaver, credential.kind) else {
        return Ok(None);
    };
    let text = stretched_by(alloc, &pwd, credential.text.as_slice())?;
    if !accepts(alloc, id, held, &pwd.handle, &text) {
        return Ok(None);
    }
    Ok(Some(text))
}

// ---- the secret

/// What the value of the slot gives.
fn slot_share(slot: &Option<Slot>) -> [u8; 64]
    ensures same { result ≡ value_share (slot_value slot.now) }
{
    match slot {
        None => value_share(b""),
        Some(slot) => value_share(&slot.value),
    }
}

/// What joins the stretched text. Without Weaver there are 16,384 discardable bytes, or nothing
/// joins it.
fn share(held: &HeldParts) -> Option<[u8; 64]>
    ensures found { IfSome result (λ share. (share ≡ credential_share (held_by held.now))
        × MatchBool held.now.weaver (Unit {0})
        (IsSomeAnd held.now.files.secdis (λ file. length file ≡ discardable_size))) }
    ensures none { IfNone result (¬ MatchBool held.now.weaver (Unit {0})
        (IsSomeAnd held.now.files.secdis (λ file. length file ≡ discardable_size))) }
{
    if held.weaver {
        return Some(slot_share(&held.slot));
    }
    let Some(file) = &held.files.secdis else {
        return None;
    };
    let file = file.as_slice();
    if file.len() != 16384 {
        return None;
    }
    Some(discardable_share(file))
}

/// Whether a stretched text leads to a blob that opens to the secret.
fn opens(
    alloc: Global,
    held: &HeldParts,
    stretched: &[u8; 32],
    secret: &Secret,
) -> Result<bool, Memory>
    ensures decided { IfOk result (λ opens. IsTrue opens
        ↔ (MatchBool held.now.weaver (Unit {0})
        (IsSomeAnd held.now.files.secdis (λ file. length file ≡ discardable_size))
        × HasBlob (held_by held.now) OfCredential secret.now.version
        × (blob_text (held_by held.now)
        (stretched.now ++ credential_share (held_by held.now)) ≡ Some secret.now.sp)
        × IsSecret secret.now)) }
{
    let Some(share) = share(held) else {
        return Ok(false);
    };
    let protector = joined(alloc, stretched, &share)?;
    let kind = BlobKind::Credential;
    let text = opened_blob(alloc, held, kind, secret.version(), protector.as_slice())?;
    Ok(is_text(&text, secret.sp_text()))
}

/// Whether what is held of the protector with this id seals the secret for the credential.
pub fn seals(
    alloc: Global,
    id: u64,
    held: &HeldParts,
    credential: &Credential,
    secret: &Secret,
) -> Result<bool, Memory>
    ensures decided { IfOk result (λ seals. IsTrue seals
        ↔ Seals id (held_by held.now) credential.now secret.now) }
{
    match accepted(alloc, id, held, credential)? {
        None => Ok(false),
        Some(stretched) => opens(alloc, held, &stretched, secret),
    }
}
