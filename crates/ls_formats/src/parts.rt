//! What a protector consists of.

use ls_bytes::NameList;

/// What a protector consists of: its files, its slot, its key, whose alias is its id, and where it
/// is enrolled the Gatekeeper's record of its id.
#[derive(Drop)]
pub struct Parts {
    /// The number of the user whose it is.
    pub user: u32,
    /// Its id, which isn't 0.
    pub id: u64,
    /// The Weaver slot that it has, on a board with slots.
    pub slot: Option<u32>,
    /// Whether the Gatekeeper has a record of its id.
    pub gk: bool,
    /// The names of its files that are there.
    pub names: NameList,
}
