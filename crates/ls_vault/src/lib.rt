//! The vault machine: what a user may rely on, with no files, slots or keys in it. Its state, one
//! step of it as a definition, and a plain program that computes these definitions.
#![tactic(auto)]

mod arming;
mod credentials;
mod drawn;
mod fresh;
mod limits;
mod machine;
mod refusal;
mod revealed;
mod script;
mod session;
mod stage;
mod state;
mod table;
mod token;
mod token_changes;
mod tokens;
mod unlocking;
mod user;
mod user_changes;
mod users;
mod vault;

pub use machine::{restart, step};
pub use script::{Said, replies};
pub use session::SessionState;
pub use state::{Outcome, State};
pub use table::Table;
pub use token::{PendingToken, Token};
pub use user::User;
pub use vault::{Books, Vault};
