//! The reading of a blob.
ghost use Rattle.std.specs.Prelude.{◌≡◌, ◌⊎◌, ℕ, List, IfOk, IfErr, IsOk, Some, None};
ghost use Rattle.std.specs.Option.{option_map};
ghost use Rattle.ls_blob.specs.Blobs.{Blob, Spells};
ghost use Rattle.ls_blob.specs.Parsing.{first_fault, blob_place};
ghost use Rattle.ls_blob.specs.Views.{blob_of, blob_in};
ghost use Rattle.ls_blob.specs.declared.fault.BlobFault.{BlobFault};

use crate::fault::BlobFault;
use crate::kind::BlobKind;
use crate::sp_blob::SpBlob;
use ls_bytes::Bytes;
use std::alloc::Global;

// The parts of a blob, in the bytes that spell it.
#[derive(Drop)]
struct Parts<'a> {
    version: u8,
    kind: BlobKind,
    content: &'a [u8],
}

// The parts of a blob, or the first fault.
fn parts_of(bytes: &[u8]) -> Result<Parts, BlobFault>
    ensures found { IfOk result (λ p. Spells (blob_in p) bytes.now) }
    ensures fine { IsOk result → first_fault bytes.now ≡ None }
    ensures fault { IfErr result (λ e. first_fault bytes.now ≡ Some e) }
    ensures only { (blob : Blob) → Spells blob bytes.now → IfOk result (λ p. blob_in p ≡ blob) }
{
    let [version, kind_byte, content @ ..] = bytes else {
        return Err(BlobFault::Short {
            at: bytes.len() as u32,
        });
    };
    let version = *version;
    if version != 2 && version != 3 {
        return Err(BlobFault::Version(version));
    }
    let Some(kind) = BlobKind::of(*kind_byte) else {
        return Err(BlobFault::Kind(*kind_byte));
    };
    let size = kind.content_size();
    if content.len() < size {
        return Err(BlobFault::Short {
            at: content.len() as u32 + 2,
        });
    }
    if content.len() > size {
        return Err(BlobFault::Extra {
            at: size as u32 + 2,
        });
    }
    Ok(Parts {
        version,
        kind,
        content,
    })
}

impl SpBlob {
    /// The blob of these bytes. Fewer than two bytes are short; then the version is tested, the
    /// kind, and the size.
    pub fn parse(alloc: Global, bytes: &[u8]) -> Result<SpBlob, BlobFault>
        ensures found { IfOk result (λ blob. Spells (blob_of blob) bytes.now) }
        ensures faulty { (e : BlobFault) → first_fault bytes.now ≡ Some e → result ≡ Err e }
        ensures fault { IfErr result
            (λ e. (e ≡ BlobFault.Memory) ⊎ (first_fault bytes.now ≡ Some e)) }

        // What has no fault spells a blob; what spells one has no fault, and is read as that blob.
        ensures spelled { first_fault bytes.now ≡ None → (blob : Blob) × Spells blob bytes.now }
        ensures only { (blob : Blob) → Spells blob bytes.now
            → (first_fault bytes.now ≡ None) × IfOk result (λ read. blob_of read ≡ blob) }
    {
        let parts = parts_of(bytes)?;
        Ok(SpBlob {
            version: parts.version,
            kind: parts.kind,
            content: Bytes::of(alloc, parts.content)?,
        })
    }

    /// The place of the first fault of bytes that are to be a blob, from 0, and None for those of a
    /// blob. It is the fault of `parse`, and takes no memory.
    pub fn fault(bytes: &[u8]) -> Option<u32>
        ensures same { result ≡ option_map blob_place (first_fault bytes.now) }
    {
        match parts_of(bytes) {
            Ok(_) => None,
            Err(fault) => Some(fault.place()),
        }
    }
}

/// The law that bytes which spell a blob have no fault. The call does nothing.
pub fn a_spelled_blob_has_no_fault()
    ensures none { (blob : Blob) (bytes : List ℕ) → Spells blob bytes → first_fault bytes ≡ None }
{}
