//! A board in memory: it keeps its start and the calls done, and fails the calls that it is told to.
#![tactic(auto)]

mod acting;
mod answers;
mod call;
mod cut;
mod devices;
mod failure;
mod memory;
mod past;
mod pick;
mod pool;
mod reading;
mod rebuild;
mod redo;
mod tape;

pub use failure::{Failure, FailureList};
pub use memory::MemBoard;
pub use pick::Pick;
