//! Whether what is held of a protector seals a secret: the definitions of sealing, decided on plain
//! values.
#![tactic(auto)]

mod credential;
mod metrics;
mod opening;
mod parts;
mod protector;
mod reading;
mod text;
mod token;

pub use credential::seals;
pub use metrics::shows_metrics;
pub use opening::opened_layers;
pub use parts::{HeldParts, PartFiles};
pub use protector::{Protector, Purpose};
pub use token::{completes, seals_token};
