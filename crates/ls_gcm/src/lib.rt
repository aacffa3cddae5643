//! AES-256 (FIPS 197) and its mode GCM (SP 800-38D), with an iv of 12 bytes and no additional data.
#![tactic(auto)]

mod aes;
mod byte;
mod counter;
mod expansion;
mod fault;
mod hash;
mod opening;
mod sealing;
mod table;
mod xor;

pub use aes::Aes256;
pub use fault::OpenFault;
pub use opening::{open, opened};
pub use sealing::{seal, what_is_sealed_are_bytes};
pub use table::{HTable, times_h};
