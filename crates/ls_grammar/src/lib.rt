//! Grammars of lines as data: the words that stand in a line, the rows of a grammar, and readers
//! of a line's words from left to right.
#![tactic(auto)]

mod digits;
mod fault;
mod laws;
mod number;
mod prefix;
mod rest;
mod untested;

pub use digits::Digits;
pub use fault::{LineFault, Refused};
pub use laws::furthest_is_longest;
pub use prefix::shared_len;
pub use rest::{LONGEST_LINE, Mismatch, Rest, SHORTEST_CREDENTIAL, first};
pub use untested::UntestedCredential;
