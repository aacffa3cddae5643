//! A command changes the vault by protectors: it makes all room, carries the change out, and the session
//! goes on with what is named then.
#![tactic(auto)]

mod committing;

pub use committing::commit_change;
