//! The devices of a directory, and the file that keeps them: its one spelling, written and read.
//! Nothing here touches a disk.
#![tactic(auto)]

mod asking;
mod choosing;
mod devices;
mod printing;
mod reading;

pub use choosing::{Chosen, SecureFile, Side, choose};
pub use devices::Devices;
pub use printing::{digest_into, print_front};
pub use reading::{Misread, parse};
