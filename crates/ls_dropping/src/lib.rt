//! A user dropped on any board.
#![tactic(auto)]

mod dropping;
mod laws;
mod planning;

pub use dropping::drop_user;
pub use laws::users_can_be_dropped;
pub use planning::drop_work;
