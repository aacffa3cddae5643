//! A new user without escrow, added on any board.
#![tactic(auto)]

mod add;
mod laws;

pub use add::add_user;
pub use laws::a_first_user_can_be_added;
