//! Why a row has no answer.

use hex::FromHexError;
use ls_bytes::{Memory, NameFault};
use std::alloc::AllocError;
use std::io;

/// Why a row has no answer.
#[derive(Clone, Copy)]
pub enum RowFault {
    /// It isn't a function with arguments that the function takes.
    Form,
    /// There was no memory.
    Memory,
}

impl From<AllocError> for RowFault {
    fn from(_error: AllocError) -> RowFault {
        RowFault::Memory
    }
}

impl From<Memory> for RowFault {
    fn from(_error: Memory) -> RowFault {
        RowFault::Memory
    }
}

impl From<NameFault> for RowFault {
    fn from(error: NameFault) -> RowFault {
        match error {
            NameFault::Memory => RowFault::Memory,
            _ => RowFault::Form,
        }
    }
}

impl From<FromHexError> for RowFault {
    fn from(error: FromHexError) -> RowFault {
        match error {
            FromHexError::OutOfMemory => RowFault::Memory,
            _ => RowFault::Form,
        }
    }
}

impl From<io::Error> for RowFault {
    fn from(_error: io::Error) -> RowFault {
        RowFault::Form
    }
}
