//! A state of the vault machine.

use crate::session::SessionState;
use crate::vault::{Books, Vault};
use ls_script::Reply;

/// A state of the vault machine.
pub struct State {
    pub vault: Vault,
    pub books: Books,
    pub session: SessionState,
}

// One call lets a state go. Where the drop is derived, each place that may drop a state lets go of
// its lists one by one.
impl Drop for State {
    fn drop(self) {
        let State {
            vault: _,
            books: _,
            session: _,
        } = self;
    }
}

/// What a command answers, and the state after it.
#[derive(Drop)]
pub struct Outcome {
    pub reply: Reply,
    pub state: State,
}
