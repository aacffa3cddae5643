//! Commands that change what the record says of a user beside its credential.
#![tactic(auto)]

mod copies;
mod pins;
mod putting;

pub use pins::auto_pin;
