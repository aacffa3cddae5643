//! What a board holds that its record doesn't name, the sweep that takes it away, and numbers that
//! aren't taken yet.
#![tactic(auto)]

mod files;
mod fresh;
mod ids;
mod laws;
mod leftovers;
mod listed;
mod lists;
mod sift;
mod slot_files;
mod slots;
mod sweeping;

pub use files::unnamed_files;
pub use fresh::{fresh_protector_id, fresh_token_id, lowest_free_slot};
pub use ids::{unnamed_enrolled, unnamed_keys};
pub use laws::{the_slots_of_files_are_named, what_is_left_over_is_unnamed};
pub use leftovers::{Leftovers, Sweep, sweep_plan};
pub use listed::{listed_enrolled, listed_files, listed_keys};
pub use lists::{names_of, numbers_of};
pub use sift::unnamed;
pub use slot_files::named_slots;
pub use slots::unused_slots;
pub use sweeping::{empty_cell, sweep, sweep_unnamed};
