//! Whether half of a secret is sealed for a token.
ghost use Rattle.std.specs.Prelude.{◌≡◌, ◌↔◌, ◌++◌, IsTrue, Some, IfOk, IsSomeAnd, MatchBool};
ghost use Rattle.ls_blob.specs.declared.kind.BlobKind.TheVariants.{StrongToken};
ghost use Rattle.ls_sealing.specs.Chain.{opened_discardable, discardable_share};
ghost use Rattle.ls_sealing.specs.Seals.{SealsToken, IsTokenSlot, slot_value, discardable_of};
ghost use Rattle.ls_sealing.specs.Seals.{CompletesTo, HasBlob, blob_text};
ghost use Rattle.ls_unsealing.specs.Parts.{held_by};

use crate::opening::opened_blob;
use crate::parts::HeldParts;
use crate::text::{is_same, is_text};
use ls_blob::{BlobKind, opened_under};
use ls_bytes::{Bytes, Memory, hex_upper, joined};
use ls_hash::phash2;
use ls_sealing::discardable_share;
use ls_secret::Secret;
use ls_weaver::Slot;
use std::alloc::Global;

/// Whether the slot is one of a token: its key is zeros, and it has no failures.
fn is_token_slot(slot: &Slot) -> bool
    ensures same { IsTrue result ↔ IsTokenSlot slot.now }
{
    slot.key == [0; 16] && slot.fails == 0 && slot.until == 0
}

/// Whether with Weaver the slot is there and one of a token.
fn has_token_slot(held: &HeldParts) -> bool
    ensures same { IsTrue result
        ↔ MatchBool held.now.weaver (IsSomeAnd held.now.slot IsTokenSlot) (Unit {0}) }
{
    if !held.weaver {
        return true;
    }
    match &held.slot {
        None => false,
        Some(slot) => is_token_slot(slot),
    }
}

/// The text of a file that is sealed under the value of a slot, if there is one.
fn opened_discardable(
    alloc: Global,
    slot: &Option<Slot>,
    file: &[u8],
) -> Result<Option<Bytes>, Memory>
    ensures same { IfOk result
        (λ bytes. bytes ≡ opened_discardable (slot_value slot.now) file.now) }
{
    match slot {
        None => opened_under(alloc, b"", b"weaver-token", file),
        Some(slot) => opened_under(alloc, &slot.value, b"weaver-token", file),
    }
}

/// The discardable bytes, if they are there.
fn discardable_of(alloc: Global, held: &HeldParts) -> Result<Option<Bytes>, Memory>
    ensures same { IfOk result (λ bytes. bytes ≡ discardable_of (held_by held.now)) }
{
    let Some(file) = &held.files.secdis else {
        return Ok(None);
    };
    if held.weaver {
        opened_discardable(alloc, &held.slot, file.as_slice())
    } else {
        Ok(Some(Bytes::of(alloc, file.as_slice())?))
    }
}

/// Whether the second half is there, has 32 bytes, and completes the first one to the secret.
pub fn completes(
    alloc: Global,
    p0: &[u8],
    p1: &Option<Bytes>,
    secret: &Secret,
) -> Result<bool, Memory>
    ensures decided { IfOk result (λ completes. IsTrue completes
        ↔ IsSomeAnd p1.now (CompletesTo secret.now p0.now)) }
{
    let Some(p1) = p1 else {
        return Ok(false);
    };
    let p1 = p1.as_slice();
    if p1.len() != 32 {
        return Ok(false);
    }
    let made = hex_upper(alloc, &phash2(b"sp-split", p0, p1))?;
    Ok(is_same(made.as_slice(), secret.sp_text()))
}

/// Whether a token leads to a blob that opens to the first half of the secret.
fn opens(
    alloc: Global,
    held: &HeldParts,
    discardable: &[u8],
    token: &[u8],
    version: u8,
    p0: &[u8],
) -> Result<bool, Memory>
    ensures decided { IfOk result (λ opens. IsTrue opens
        ↔ (HasBlob (held_by held.now) StrongToken version
        × (blob_text (held_by held.now)
        (token.now ++ discardable_share discardable.now) ≡ Some p0.now))) }
{
    let protector = joined(alloc, token, &discardable_share(discardable))?;
    let kind = BlobKind::StrongToken;
    let text = opened_blob(alloc, held, kind, version, protector.as_slice())?;
    Ok(is_text(&text, p0))
}

/// Whether what is held of a protector seals the first half of the secret for the bytes of a token,
/// and the half in the user's `p1` file completes it to the secret.
pub fn seals_token(
    alloc: Global,
    held: &HeldParts,
    p1: &Option<Bytes>,
    token: &[u8],
    secret: &Secret,
    p0: &[u8],
) -> Result<bool, Memory>
    ensures decided { IfOk result (λ seals. IsTrue seals
        ↔ SealsToken (held_by held.now) p1.now token.now secret.now p0.now) }
{
    if !has_token_slot(held) || !completes(alloc, p0, p1, secret)? {
        return Ok(false);
    }
    let Some(discardable) = discardable_of(alloc, held)? else {
        return Ok(false);
    };
    let discardable = discardable.as_slice();
    if discardable.len() != 16384 {
        return Ok(false);
    }
    opens(alloc, held, discardable, token, secret.version(), p0)
}
