//! Noise is drawn for a command, and a session stops where a call fails.
#![tactic(auto)]

mod noise;
mod stopping;

pub use noise::draw;
pub use stopping::stop_by;
