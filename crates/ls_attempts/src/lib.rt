//! What attempts end with in a world that stands for a vault.
#![tactic(auto)]

mod laws;

pub use laws::attempts_end_as_the_user_is;
