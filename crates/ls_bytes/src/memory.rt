//! Want of memory.

use std::alloc::AllocError;

/// No memory could be had. What the call was to change is as it was.
#[derive(Clone, Copy, Debug, PartialEq, Eq)]
pub struct Memory;

impl From<AllocError> for Memory {
    fn from(_error: AllocError) -> Memory {
        Memory
    }
}
