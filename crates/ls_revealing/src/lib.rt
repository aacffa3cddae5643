//! What is told of a user whose secret was opened.
#![tactic(auto)]

mod counts;
mod revealing;
mod secure;

pub use revealing::reveal;
