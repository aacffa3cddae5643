//! Why bytes are no blob.
ghost use Rattle.std.specs.Prelude.{◌≡◌};
ghost use Rattle.ls_blob.specs.Parsing.{blob_place};
ghost use Rattle.ls_blob.specs.declared.fault.BlobFault.TheVariants as fault;

use ls_bytes::Memory;

/// Why bytes are no blob. Places are counted from 0.
#[derive(Clone, Copy, Debug, PartialEq, Eq)]
pub enum BlobFault {
    /// The bytes end at this place, before the blob does.
    Short { at: u32 },
    /// The first byte is this, and no version that is read.
    Version(u8),
    /// The second byte is this, and no kind that is read.
    Kind(u8),
    /// The byte at this place is the first behind the blob.
    Extra { at: u32 },
    /// There was no memory for the content.
    Memory,
}

impl BlobFault {
    // The place of the fault.
    pub(crate) fn place(self) -> u32
        ensures { result ≡ blob_place self }
    {
        match self {
            BlobFault::Short { at } | BlobFault::Extra { at } => at,
            BlobFault::Version(_) | BlobFault::Memory => 0,
            BlobFault::Kind(_) => 1,
        }
    }
}

impl From<Memory> for BlobFault {
    ghost from_gives = { λ _ e. e ≡ fault.Memory };

    fn from(_error: Memory) -> BlobFault {
        BlobFault::Memory
    }
}
