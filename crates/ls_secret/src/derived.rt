//! The four keys that an opened user has.

use crate::subkey::Subkey;

/// The four keys that are derived from the secret of a user.
#[derive(Clone, Copy, Debug, PartialEq, Eq)]
pub struct Derived {
    /// The password of the key store.
    pub keystore: Subkey,
    /// The key of the files that are encrypted for the user.
    pub fbe: Subkey,
    /// The secret of the hardware's authentication.
    pub auth: Subkey,
    /// The password under which the Gatekeeper knows the secret.
    pub gk: Subkey,
}
