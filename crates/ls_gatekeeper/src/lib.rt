//! The device that signs handles of passwords, checks them, and rests after wrong ones.
#![tactic(auto)]

mod counter;
mod gatekeeper;
mod handle;
mod verify;

pub use gatekeeper::Gatekeeper;
pub use verify::Verify;
