//! Escrow tokens of a user.

use ls_bytes::Bytes;

/// An active token: it opens its user.
#[derive(Drop)]
pub struct Token {
    /// Its number. It is odd, and no other token of any user has it.
    pub id: u64,
    /// What has to be offered.
    pub bytes: Bytes,
}

/// A token that was added and isn't active yet. It opens nothing, and ends with the session.
#[derive(Drop)]
pub struct PendingToken {
    /// The number of its user.
    pub user: u32,
    /// The id that it will have as an active token.
    pub id: u64,
    /// What will have to be offered.
    pub bytes: Bytes,
}
