//! A user of a vault.

use crate::table::Table;
use crate::token::Token;
use ls_credential::Credential;
use ls_secret::Secret;

/// A user of a vault.
#[derive(Drop)]
pub struct User {
    /// The number by which commands name the user.
    pub number: u32,
    /// It is drawn when the user is added, and stays until the user is dropped.
    pub secret: Secret,
    /// What unlocks the user.
    pub credential: Credential,
    /// How many wrong texts were offered one after another.
    pub fails: u32,
    /// The moment before which no text is looked at, in milliseconds.
    pub until: u64,
    /// The secure user id, 0 where there is no credential.
    pub secure: u64,
    /// Whether the user may have tokens.
    pub escrow: bool,
    /// Whether the lock screen may know the length of the PIN.
    pub auto: bool,
    /// The active tokens, in order of activation.
    pub tokens: Table<Token>,
}
