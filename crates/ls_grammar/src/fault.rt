//! Why a text is no line.

use crate::rest::Mismatch;
use ls_bytes::Memory;
use ls_credential::CredentialFault;

/// Why a text is no line.
#[derive(Clone, Copy, Debug, PartialEq, Eq)]
pub enum LineFault {
    /// It isn't in the grammar. The column is one more than the length of its longest prefix that
    /// is a prefix of a line.
    Syntax { column: u32 },
    /// It is in the grammar, and this is the fault of its leftmost bad credential.
    BadCredential(CredentialFault),
    /// There was no memory for the line.
    Memory,
}

/// The same, before the column is known to fit its number.
#[derive(Clone, Copy, Debug)]
pub enum Refused {
    Mismatch(Mismatch),
    BadCredential(CredentialFault),
    Memory,
}

impl Refused {
    ghost use Rattle.std.specs.Prelude.{◌≡◌};
    ghost use Rattle.ls_grammar.specs.Refusals.{IsSmall, fault_of_refused};

    /// The fault of the line.
    pub fn fault(self) -> LineFault
        requires { IsSmall self }
        ensures { result ≡ fault_of_refused self }
    {
        match self {
            Refused::Mismatch(mismatch) => LineFault::Syntax {
                column: mismatch.at as u32 + 1,
            },
            Refused::BadCredential(fault) => LineFault::BadCredential(fault),
            Refused::Memory => LineFault::Memory,
        }
    }
}

impl From<Mismatch> for Refused {
    ghost use Rattle.std.specs.Prelude.{◌≡◌};
    ghost use Rattle.ls_grammar.specs.declared.fault.Refused.TheVariants as refused;

    ghost from_gives = { λ mismatch e. e ≡ refused.Mismatch mismatch };

    fn from(mismatch: Mismatch) -> Refused {
        Refused::Mismatch(mismatch)
    }
}

impl From<CredentialFault> for Refused {
    ghost use Rattle.std.specs.Prelude.{◌≡◌};
    ghost use Rattle.ls_grammar.specs.declared.fault.Refused.TheVariants as refused;

    ghost from_gives = { λ fault e. e ≡ refused.BadCredential fault };

    fn from(fault: CredentialFault) -> Refused {
        Refused::BadCredential(fault)
    }
}

impl From<Memory> for Refused {
    ghost use Rattle.std.specs.Prelude.{◌≡◌};
    ghost use Rattle.ls_grammar.specs.declared.fault.Refused.TheVariants as refused;

    ghost from_gives = { λ _ e. e ≡ refused.Memory };

    fn from(_error: Memory) -> Refused {
        Refused::Memory
    }
}
