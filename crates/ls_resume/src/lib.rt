//! Users are armed, so that they can be opened once after a restart without their credentials.
#![tactic(auto)]

mod arming;
mod ending;
mod fault;
mod laws;
mod opening;
mod reading;
mod resuming;
mod revealing;
mod secrets;
mod taking;

pub use arming::arm_plan;
pub use ending::ResumeEnd;
pub use fault::FileFault;
pub use laws::{armed_secrets_open, armed_users_are_resumed, what_arms_may_be_asked};
pub use resuming::resume;
pub use revealing::reveal_resumed;
pub use secrets::{SecretRow, SecretRows};
