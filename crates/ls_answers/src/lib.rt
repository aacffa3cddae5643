//! What a board answers, by what it holds: lists of names and ids, and what its devices say.
#![tactic(auto)]

mod devices;
mod listing;

pub use devices::{answer_of_cell, answer_of_slot};
pub use listing::{list_ids, list_names};
