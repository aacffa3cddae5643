//! What outlives a session: the users, an arming, and what the settings keep of these.

use crate::table::Table;
use crate::user::User;
use ls_arming::{Arming, UserNumbers};

/// What is kept of users.
#[derive(Drop)]
pub struct Vault {
    /// The users, by ascending number.
    pub users: Table<User>,
    /// What the next `resume` opens.
    pub arming: Option<Arming>,
}

/// What the settings keep beside the vault.
#[derive(Drop)]
pub struct Books {
    /// How many changes of the vault were kept: the sequence number of the settings.
    pub kept: u64,
    /// The users of an arming whose key is gone, ascending.
    pub dead: UserNumbers,
}
