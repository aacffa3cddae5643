//! What a record names, and which settings count.
#![tactic(auto)]

mod files;
mod laws;
mod names;
mod rows;

pub use files::{PartNames, row_files};
pub use laws::{
    an_opened_entry_counts, entries_change_in_order, entries_follow_gates, named_files_have_names,
    named_slots_follow_files, settings_follow_two_files,
};
pub use names::{names_enrolled, names_file, names_key};
pub use rows::{has_credential, has_secure, is_armed};
