//! Keyed hashes and derived keys: HMAC-SHA256 (FIPS 198-1), a key derivation in counter mode
//! (SP 800-108), personalised SHA-512, and PBKDF2 with one iteration (RFC 8018).
#![tactic(auto)]

mod derivation;
mod mac;
mod padding;
mod pbkdf2;
mod personal;

pub use derivation::sp800;
pub use mac::{hmac256, hmac256_joined};
pub use pbkdf2::{pbkdf2_fill, pbkdf2_once};
pub use personal::{phash, phash2};
