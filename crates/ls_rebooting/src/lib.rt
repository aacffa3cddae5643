//! The commands that keep the secrets of users over a restart, and open the users behind it.
#![tactic(auto)]

mod carrying;
mod clearing;
mod ending;
mod preparing;
mod room;

pub use preparing::prepare;
