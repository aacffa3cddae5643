//! Why bytes are not of a format.

/// Why bytes are not of a format.
#[derive(Clone, Copy, Debug, PartialEq, Eq)]
pub enum FormatFault {
    /// At this place, from 0, stands a byte that can't stand there, or the bytes end too early.
    Bad { at: u32 },
    /// There was no memory. No call of this crate answers it, since none that parses takes any.
    Memory,
}
