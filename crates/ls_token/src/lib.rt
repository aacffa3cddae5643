//! Tokens that unlock for a user besides its credential.
#![tactic(auto)]

mod drafting;
mod pending;

pub use drafting::draft_token;
pub use pending::Pending;
