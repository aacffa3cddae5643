//! What is read over a board: a look at its world, by calls that change nothing.
#![tactic(auto)]

mod file;

pub use file::read_file;
