//! Runs one after another, each on what a crash left of the one before. What happened in them is a
//! history of the vault machine, and so every law of histories holds of it.
#![tactic(auto)]

mod histories;
mod laws;
mod worlds;

pub use histories::{lives_are_histories, stretches_are_histories};
pub use laws::laws_hold_over_lives;
pub use worlds::{lives_are_counted, lives_follow_each_other, what_is_left_of_a_run_is_a_life};
