//! The files of retired protectors are removed, one at a time: those of the oldest one, or those of
//! the protectors of one id.
#![tactic(auto)]

mod by_id;
mod tidying;

pub use by_id::tidy_id;
pub use tidying::tidy;
