//! What an attempt comes to.

use ls_script::{Refusal, Revealed};
use ls_secret::Secret;

/// What the credential or the token of a user comes to.
#[derive(Drop)]
pub enum Tried {
    /// It leads to this secret.
    Opened(Secret),
    Refused(Refusal),
}

/// What the command comes to, before the session knows of it.
#[derive(Drop)]
pub enum Ending {
    /// The user is opened by this secret, and gets this.
    Opened(Secret, Revealed),
    Refused(Refusal),
}
