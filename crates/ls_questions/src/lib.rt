//! Commands that do no action: a user is closed, and questions are answered by the record and by
//! what the session knows.
#![tactic(auto)]

mod closing;
mod listing;
mod pins;
mod standings;
mod statuses;
mod tokens;

pub use closing::lock;
pub use listing::users;
pub use pins::pin_length;
pub use standings::standing;
pub use statuses::status;
pub use tokens::token_state;
