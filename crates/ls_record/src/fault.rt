//! Why bytes are no record, and no change of one.
ghost use Rattle.std.specs.Prelude.{◌≡◌};
ghost use Rattle.ls_record.specs.declared.fault.RecordFault.TheVariants as fault;

use ls_bytes::Memory;

/// The first fault from left to right, with its place from 0. A fault of a value comes before one
/// of its order.
#[derive(Clone, Copy, Debug, PartialEq, Eq)]
pub enum RecordFault {
    /// A field doesn't fit: the place is the end of the bytes.
    Short { at: u32 },
    /// The field doesn't ascend, repeats an earlier one, or names a user that isn't there.
    Order { at: u32 },
    /// The field has a value that it can't have.
    Limit { at: u32 },
    /// Bytes stand after the end.
    Extra { at: u32 },
    /// There was no memory.
    Memory,
}

impl From<Memory> for RecordFault {
    ghost from_gives = { λ _ e. e ≡ fault.Memory };

    fn from(_error: Memory) -> RecordFault {
        RecordFault::Memory
    }
}
