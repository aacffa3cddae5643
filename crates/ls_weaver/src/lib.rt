//! Slots that give out a value for its key, and rest after wrong keys.
#![tactic(auto)]

mod slot;
mod throttle;
mod weaver;

pub use slot::{Slot, SlotRead};
pub use throttle::timeout;
pub use weaver::Weaver;
