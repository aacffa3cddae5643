//! The secret of a user, and the keys that are derived from it.
#![tactic(auto)]

mod derived;
mod escrow;
mod fault;
mod personal;
mod secret;
mod subkey;

pub use derived::Derived;
pub use fault::SecretFault;
pub use personal::Personal;
pub use secret::Secret;
pub use subkey::Subkey;
