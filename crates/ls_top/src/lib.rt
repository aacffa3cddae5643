//! The top call: the words of the command line, and a script served over any board.
#![tactic(auto)]

mod hearing;
mod line;
mod number;
mod opening;
mod partial_line;
mod plain;
mod reply;
mod serving;
mod status;
mod top;
mod users_file;
mod vault;
mod words;

pub use line::command_of_line;
pub use plain::replies_of;
pub use status::Status;
pub use top::run;
pub use vault::{Command, Refusal, Reply, Users};
