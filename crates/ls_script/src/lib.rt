//! The lines of a script: how they are read, which commands each stands for, and how replies are
//! printed.
#![tactic(auto)]

mod command;
mod details;
mod laws;
mod print;
mod read;
mod reply;
mod script_line;
mod verb;
mod words;

pub use command::{Command, CommandList};
pub use laws::{lines_are_read_by_their_beginning, replies_are_lines};
pub use ls_grammar::LineFault;
pub use print::{print_fault, print_reply};
pub use read::line;
pub use reply::{Refusal, Reply, Revealed, RevealedList, StatusRow, TokenState};
pub use script_line::ScriptLine;
