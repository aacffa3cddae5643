//! The record of users that the settings files hold, and its changes.
#![tactic(auto)]

mod body;
mod changing;
mod copying;
mod edit;
mod edit_reading;
mod fault;
mod fields;
mod ids;
mod judge;
mod leading;
mod parts;
mod record;
mod row;
mod rows;
mod writing;

pub use edit::Edit;
pub use fault::RecordFault;
pub use record::Record;
pub use row::{RowList, UserRow};
