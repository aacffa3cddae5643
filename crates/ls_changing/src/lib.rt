//! Another credential of a user: a new protector and, for a first credential, a new secure id.
#![tactic(auto)]

mod carrying;
mod changing;
mod drawn;
mod handles;
mod keeping;
mod numbers;
mod own;
mod planned;
mod planning;
mod refusing;
mod rows;

pub use changing::change;
