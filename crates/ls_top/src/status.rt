//! How a run ends.

use ls_board::Part;
use ls_bytes::Name;

/// How a run ends.
#[derive(Drop)]
pub enum Status {
    /// The whole input was heard, and every reply was said.
    Done,
    /// The words don't have the written form. No action was made.
    Usage,
    /// This file is none of this program. The place is that of the first fault in it.
    Foreign { name: Name, at: u32 },
    /// This part failed.
    Fault(Part),
    /// There was no memory.
    Memory,
    /// More than 2^30 bytes came. The lines that were complete before are answered.
    TooLong,
}
