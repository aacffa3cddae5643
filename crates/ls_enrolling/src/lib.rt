//! A user is added: a secret, a protector without a credential, and a row.
#![tactic(auto)]

mod adding;
mod carrying;
mod drawn;
mod halves;
mod numbers;
mod planned;
mod planning;
mod refusing;

pub use adding::user_add;
