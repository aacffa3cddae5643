//! The service on a board: its opening, its commands, and the tidying between them.
#![tactic(auto)]

mod begin;
mod checking;
mod finding;
mod keeping;
mod laws;
mod opening;

pub use laws::named_protectors_are_found;
pub use opening::open;
