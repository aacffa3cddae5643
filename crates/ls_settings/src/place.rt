//! Where the settings stand in the two files.

use ls_formats::Side;

/// What is known of the two files beside the record.
#[derive(Clone, Copy)]
pub(crate) struct Place {
    pub sequence: u64,
    /// The current file, if there is one.
    pub side: Option<Side>,
    /// Where its journal ends, if it has one.
    pub end: Option<u32>,
    /// The format of its body, 1 or 2.
    pub format: u8,
    /// Whether the gate of the other file is open.
    pub target_open: bool,
}
