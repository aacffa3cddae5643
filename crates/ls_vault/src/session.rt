//! What ends with a session.

use crate::table::Table;
use crate::token::PendingToken;
use ls_arming::UserNumbers;

/// What ends with a session.
#[derive(Drop)]
pub struct SessionState {
    /// The number of the boot in which the session runs.
    pub boot: u32,
    /// The numbers of the opened users, ascending.
    pub opened: UserNumbers,
    /// The tokens that aren't active yet, in the order in which they were added.
    pub pending: Table<PendingToken>,
    /// Whether each user who is unlocked is captured for an arming.
    pub prepared: bool,
    /// The numbers of the captured users, ascending.
    pub captured: UserNumbers,
}
