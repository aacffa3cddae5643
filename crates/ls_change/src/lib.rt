//! A change of the vault on any board, which a crash leaves whole or undone.
#![tactic(auto)]

mod carry;
mod work;

pub use carry::carry_out;
pub use work::Work;
