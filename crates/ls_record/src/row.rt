//! What a record says of a user.

use ls_bytes::{IdList, Rows};
use ls_credential::Kind;

/// What a record says of a user. It holds no secret, no slot and no counter.
#[derive(Drop)]
pub struct UserRow {
    pub user: u32,
    /// Whether the user has escrow tokens.
    pub escrow: bool,
    pub kind: Kind,
    /// Whether the length of a PIN may be shown.
    pub auto: bool,
    /// The length of the PIN where it is shown, else 0.
    pub pin: u8,
    /// The id of the credential's protector.
    pub protector: u64,
    /// The secure user id, 0 for none.
    pub secure: u64,
    /// The ids of the active tokens, in the order of their activation.
    pub tokens: IdList,
}

/// A list of rows.
pub type RowList = Rows<UserRow>;
