//! The kinds of blobs.
ghost use Rattle.std.specs.Prelude.{◌≡◌};
ghost use Rattle.ls_blob.specs.Kinds.{kind_byte, kind_of, content_size};

/// What a blob holds, and who opens it.
#[derive(Clone, Copy, Debug, PartialEq, Eq)]
pub enum BlobKind {
    /// The synthetic password, for a credential; byte 00.
    Credential,
    /// The first half of what the synthetic password is made of, for an escrow token; byte 01.
    StrongToken,
}

impl BlobKind {
    // The kind of this byte.
    pub(crate) fn of(byte: u8) -> Option<BlobKind>
        ensures { result ≡ kind_of byte }
    {
        match byte {
            0 => Some(BlobKind::Credential),
            1 => Some(BlobKind::StrongToken),
            _ => None,
        }
    }

    // The byte of the kind.
    pub(crate) fn byte(self) -> u8
        ensures { result ≡ kind_byte self }
    {
        match self {
            BlobKind::Credential => 0,
            BlobKind::StrongToken => 1,
        }
    }

    // How many bytes of content a blob of the kind has.
    pub(crate) fn content_size(self) -> usize
        ensures { result ≡ content_size self }
    {
        match self {
            BlobKind::Credential => 184,
            BlobKind::StrongToken => 88,
        }
    }
}
