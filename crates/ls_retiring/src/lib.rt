//! The plans that take protectors away, and those that put and remove the files of a user itself.
#![tactic(auto)]

mod built;
mod erasing;
mod files;
mod laws;
mod own;
mod removing;

pub use built::Built;
pub use erasing::{erase_all_plan, erase_plan};
pub use laws::what_takes_away_may_be_asked;
pub use own::{put_escrow_plan, put_own_plan, remove_own_plan};
pub use removing::remove_plan;
