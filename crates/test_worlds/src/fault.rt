//! Why a row has no answer.

use hex::FromHexError;
use ls_bytes::{Memory, NameFault};
use ls_credential::CredentialFault;
use ls_record::RecordFault;
use ls_secret::SecretFault;
use ls_settings::{OpenRefusal, PrepareFault};
use std::alloc::AllocError;

/// Why a row has no answer.
#[derive(Clone, Copy)]
pub enum RowFault {
    /// It isn't a row with arguments that the row takes.
    Form,
    /// There was no memory.
    Memory,
}

impl From<AllocError> for RowFault {
    fn from(_error: AllocError) -> RowFault {
        RowFault::Memory
    }
}

impl From<Memory> for RowFault {
    fn from(_error: Memory) -> RowFault {
        RowFault::Memory
    }
}

impl From<FromHexError> for RowFault {
    fn from(error: FromHexError) -> RowFault {
        match error {
            FromHexError::OutOfMemory => RowFault::Memory,
            _ => RowFault::Form,
        }
    }
}

impl From<NameFault> for RowFault {
    fn from(fault: NameFault) -> RowFault {
        match fault {
            NameFault::Memory => RowFault::Memory,
            _ => RowFault::Form,
        }
    }
}

impl From<RecordFault> for RowFault {
    fn from(fault: RecordFault) -> RowFault {
        match fault {
            RecordFault::Memory => RowFault::Memory,
            _ => RowFault::Form,
        }
    }
}

impl From<SecretFault> for RowFault {
    fn from(fault: SecretFault) -> RowFault {
        match fault {
            SecretFault::Memory => RowFault::Memory,
            _ => RowFault::Form,
        }
    }
}

impl From<CredentialFault> for RowFault {
    fn from(fault: CredentialFault) -> RowFault {
        match fault {
            CredentialFault::Memory => RowFault::Memory,
            _ => RowFault::Form,
        }
    }
}

impl From<PrepareFault> for RowFault {
    fn from(fault: PrepareFault) -> RowFault {
        match fault {
            PrepareFault::Memory => RowFault::Memory,
            _ => RowFault::Form,
        }
    }
}

impl From<OpenRefusal> for RowFault {
    fn from(refusal: OpenRefusal) -> RowFault {
        match refusal {
            OpenRefusal::Memory => RowFault::Memory,
            _ => RowFault::Form,
        }
    }
}
