//! The outside as it is: a directory, the devices in two files of it, standard input and output,
//! the clock of the machine and its noise. It obeys the rules of a board and tells nothing.
#![tactic(auto)]

mod acting;
mod board;
mod changes;
mod devices;
mod disk;
mod fault;
mod faults;
mod looking;
mod opening;
mod outside;
mod secure;
mod streams;

pub use board::DirBoard;
pub use fault::DirFault;
