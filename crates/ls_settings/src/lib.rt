//! The record of users in two gated files, which no crash can tear.
#![tactic(auto)]

mod actions;
mod commit;
mod content;
mod fault;
mod files;
mod found;
mod head;
mod journal;
mod laws;
mod load;
mod make;
mod place;
mod plan;
mod prepare;
mod settings;

pub use fault::{OpenRefusal, PrepareFault};
pub use laws::{commits_touch_settings_files_alone, current_records_keep_their_rules};
pub use plan::{CommitPlan, Committed};
pub use settings::Settings;
