//! What opens, by keys that may be wrong.
ghost use Rattle.std.specs.Prelude.{◌≡◌, None, Some, IfOk, IfSome, IfNone, IsSomeAnd};
ghost use Rattle.ls_blob.specs.Blobs.{Spells};
ghost use Rattle.ls_sealing.specs.Chain.{opened_outer, opened_layers};
ghost use Rattle.ls_sealing.specs.Seals.{content_of, HasBlob, blob_text};
ghost use Rattle.ls_unsealing.specs.Parts.{held_by};

use crate::parts::HeldParts;
use ls_blob::{BlobFault, BlobKind, SpBlob, opened_under};
use ls_bytes::{Bytes, Memory};
use ls_gcm::opened;
use std::alloc::Global;

/// What the outer layer opens to, by the key in the key store, if there is one.
fn opened_outer(
    alloc: Global,
    key: &Option<[u8; 32]>,
    content: &[u8],
) -> Result<Option<Bytes>, Memory>
    ensures same { IfOk result (λ text. text ≡ opened_outer key.now content.now) }
{
    match key {
        None => Ok(None),
        Some(key) => opened(alloc, key, content),
    }
}

/// What two layers open to: the outer one by the key in the key store, if there is one, and the
/// inner one under the secret of the protector.
pub fn opened_layers(
    alloc: Global,
    key: &Option<[u8; 32]>,
    secret: &[u8],
    content: &[u8],
) -> Result<Option<Bytes>, Memory>
    ensures same { IfOk result (λ text. text ≡ opened_layers key.now secret.now content.now) }
{
    match opened_outer(alloc, key, content)? {
        None => Ok(None),
        Some(inner) => opened_under(alloc, secret, b"application-id", inner.as_slice()),
    }
}

/// What stands behind the version and the kind, where the file spells a blob of these.
fn blob_content(
    alloc: Global,
    file: &Option<Bytes>,
    kind: BlobKind,
    version: u8,
) -> Result<Option<Bytes>, Memory>
    ensures found { IfOk result (λ found. IfSome found (λ content. (content ≡ content_of file.now)
        × IsSomeAnd file.now
        (Spells (record { version = version; kind = kind; content = content })))) }
    ensures none { IfOk result (λ found. IfNone found (¬ IsSomeAnd file.now
        (Spells (record { version = version; kind = kind; content = content_of file.now })))) }
{
    let Some(file) = file else {
        return Ok(None);
    };
    match SpBlob::parse(alloc, file.as_slice()) {
        Ok(blob) if blob.version == version && blob.kind == kind => Ok(Some(blob.content)),
        Ok(_) => Ok(None),
        Err(BlobFault::Memory) => Err(Memory),
        Err(_) => Ok(None),
    }
}

/// What the blob opens to under this secret of the protector, where it is of this kind and version.
pub(crate) fn opened_blob(
    alloc: Global,
    held: &HeldParts,
    kind: BlobKind,
    version: u8,
    secret: &[u8],
) -> Result<Option<Bytes>, Memory>
    ensures found { IfOk result (λ found. IfSome found (λ text.
        HasBlob (held_by held.now) kind version
        × (blob_text (held_by held.now) secret.now ≡ Some text))) }
    ensures none { IfOk result (λ found. IfNone found
        (HasBlob (held_by held.now) kind version
        → blob_text (held_by held.now) secret.now ≡ None)) }
{
    match blob_content(alloc, &held.files.spblob, kind, version)? {
        None => Ok(None),
        Some(content) => opened_layers(alloc, &held.key, secret, content.as_slice()),
    }
}
