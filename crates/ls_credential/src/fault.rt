//! Why a text is no credential.
ghost use Rattle.std.specs.Prelude.{◌≡◌};
ghost use Rattle.ls_credential.specs.declared.fault.CredentialFault.TheVariants as fault;

use ls_bytes::Memory;

/// Why a text is no credential. The rules are tested in this order.
#[derive(Clone, Copy, Debug, PartialEq, Eq)]
pub enum CredentialFault {
    /// It is too short or too long for its kind.
    Length,
    /// It has a byte that its kind doesn't have.
    Alphabet,
    /// It is a pattern and passes a cell twice.
    Repeat,
    /// There was no memory for the text.
    Memory,
}

impl From<Memory> for CredentialFault {
    ghost from_gives = { λ _ e. e ≡ fault.Memory };

    fn from(_error: Memory) -> CredentialFault {
        CredentialFault::Memory
    }
}
