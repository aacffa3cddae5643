//! scrypt (RFC 7914), by vectors: the key that a password gives at a cost in time and memory.
#![tactic(auto)]

mod block_mix;
mod diagonals;
mod ro_mix;
mod rounds;
mod scrypt;
mod xor;

pub use scrypt::{Cost, stretch};
pub use xor::xor_into;
