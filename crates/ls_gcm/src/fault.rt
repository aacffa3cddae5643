//! Why a sealed text isn't opened.
ghost use Rattle.std.specs.Prelude.{◌≡◌};
ghost use Rattle.ls_gcm.specs.declared.fault.OpenFault.TheVariants as fault;

use ls_bytes::Memory;
use std::alloc::AllocError;

/// Why a sealed text isn't opened. A text that is too short is told before a wrong tag.
#[derive(Clone, Copy, Debug, PartialEq, Eq)]
pub enum OpenFault {
    /// It has fewer than the 28 bytes of an iv and a tag.
    Short,
    /// Its tag isn't that of its ciphertext under this key.
    Tag,
    /// There was no memory for the plain text.
    Memory,
}

impl From<AllocError> for OpenFault {
    ghost from_gives = { λ _ e. e ≡ fault.Memory };

    fn from(_error: AllocError) -> OpenFault {
        OpenFault::Memory
    }
}

impl From<Memory> for OpenFault {
    ghost from_gives = { λ _ e. e ≡ fault.Memory };

    fn from(_error: Memory) -> OpenFault {
        OpenFault::Memory
    }
}
