//! The numbers of users, which come and go in order, and an arming of users for a restart.
#![tactic(auto)]

mod arming;
mod numbers;

pub use arming::{Arming, copy_arming, disarmed};
pub use numbers::UserNumbers;
