//! A script served over any board, a line at a time, by any service that answers lines.
#![tactic(auto)]

mod calls;
mod hearing;
mod partial_line;
mod script;
mod service;
mod serving;

pub use calls::{hear, say, sync};
pub use hearing::{Ending, serve_input};
pub use script::{Heard, hear_script};
pub use service::Service;
