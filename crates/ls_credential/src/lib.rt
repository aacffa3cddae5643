//! What a user unlocks with: a kind and a text that keeps the rules of the kind.
#![tactic(auto)]

mod credential;
mod fault;
mod kind;
mod measure;
mod metrics;
mod stretch;

pub use credential::Credential;
pub use fault::CredentialFault;
pub use kind::Kind;
pub use metrics::Metrics;
