//! The pending tokens of a user become active: each gets a protector of its own, with the half of the
//! secret that the user's `e0` file holds.
#![tactic(auto)]

mod activating;
mod carrying;
mod choosing;
mod counting;
mod drafting;
mod freeing;
mod halves;
mod planned;
mod planning;
mod refusing;
mod rows;

pub use activating::activate;
