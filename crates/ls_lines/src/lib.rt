//! A script as its lines.
#![tactic(auto)]

mod laws;
mod script;

pub use laws::scripts_are_parted;
pub use script::first_line;
