//! What is held of a protector.

use ls_board::Counter;
use ls_bytes::Bytes;
use ls_weaver::Slot;

/// The files of a protector, by their parts.
#[derive(Drop)]
pub struct PartFiles {
    pub spblob: Option<Bytes>,
    pub pwd: Option<Bytes>,
    pub secdis: Option<Bytes>,
    pub weaver: Option<Bytes>,
    pub metrics: Option<Bytes>,
}

/// All that is held of a protector.
#[derive(Drop)]
pub struct HeldParts {
    /// Whether the board has Weaver.
    pub weaver: bool,
    pub files: PartFiles,
    /// The slot that its `weaver` file names.
    pub slot: Option<Slot>,
    /// The Gatekeeper's record of its id.
    pub counter: Option<Counter>,
    /// The key under which the Gatekeeper signs.
    pub device: [u8; 32],
    /// The key of its id in the key store.
    pub key: Option<[u8; 32]>,
}
