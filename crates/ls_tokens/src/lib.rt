//! Tokens of a user.
#![tactic(auto)]

mod adding;
mod fresh;
mod refusing;

pub use adding::token_add;
