//! Which protector is looked at.

use ls_credential::Kind;

/// What a protector is for.
#[derive(Clone, Copy, Debug, PartialEq, Eq)]
pub enum Purpose {
    /// The secret, for a user's credential of this kind.
    Credential(Kind),
    /// The first half of the secret, for a token.
    Token,
}

/// Whose a protector is, its id, which isn't 0, and what it is for.
#[derive(Clone, Copy, Debug, PartialEq, Eq)]
pub struct Protector {
    pub user: u32,
    pub id: u64,
    pub purpose: Purpose,
}
