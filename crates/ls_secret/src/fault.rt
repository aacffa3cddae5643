//! Why there is no secret.
ghost use Rattle.std.specs.Prelude.{◌≡◌};
ghost use Rattle.ls_secret.specs.declared.fault.SecretFault.TheVariants as fault;

use ls_bytes::Memory;

/// Why there is no secret. An unknown version is told before a wrong text.
#[derive(Clone, Copy, Debug, PartialEq, Eq)]
pub enum SecretFault {
    /// The version is neither 2 nor 3.
    Version,
    /// The text isn't one of 128 upper-case hex digits.
    Shape,
    /// There was no memory for the text.
    Memory,
}

impl From<Memory> for SecretFault {
    ghost from_gives = { λ _ e. e ≡ fault.Memory };

    fn from(_error: Memory) -> SecretFault {
        SecretFault::Memory
    }
}
