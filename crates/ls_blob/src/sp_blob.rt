//! The file of a sealed synthetic password: a byte of the version, a byte of the kind, the content.
ghost use Rattle.std.specs.Prelude.{◌≡◌, ◌≤◌, length};
ghost use Rattle.ls_blob.specs.Kinds.{content_size};

use crate::kind::BlobKind;
use ls_bytes::{Bytes, Memory, put_bytes};
use std::alloc::Global;

/// A sealed synthetic password, or a sealed half of what one is made of.
#[derive(Drop)]
pub struct SpBlob {
    /// The version of the secret, 2 or 3.
    pub version: u8,
    pub kind: BlobKind,
    /// What was sealed: 184 bytes of a credential's blob, 88 of a token's.
    pub content: Bytes,
    pub ghost known: { (2 ≤ version) × (version ≤ 3) },
    pub ghost sized: { length content ≡ content_size kind },
}

impl SpBlob {
    ghost use Rattle.std.specs.Prelude.{IfOk};
    ghost use Rattle.ls_blob.specs.Blobs.{Spells};
    ghost use Rattle.ls_blob.specs.Views.{blob_of};

    /// The bytes that spell the blob, 186 or 90.
    pub fn print(&self, alloc: Global) -> Result<Bytes, Memory>
        ensures spelled { IfOk result (λ bytes. Spells (blob_of self.now) bytes) }
    {
        let mut bytes = Bytes::of(alloc, &[self.version, self.kind.byte()])?;
        put_bytes(&mut bytes, self.content.as_slice())?;
        Ok(bytes)
    }
}
