//! Users are unlocked, by a credential or by a token.
#![tactic(auto)]

mod attempts;
mod ending;
mod entries;
mod finishing;
mod moment;
mod parts;
mod token_attempts;
mod trying;

pub use attempts::attempt;
pub use token_attempts::token_attempt;
