//! The store of keys by their aliases, and the cell that holds a key over one restart.
#![tactic(auto)]

mod cell;
mod fault;
mod store;

pub use cell::ResumeCell;
pub use fault::KeyFault;
pub use store::KeyStore;
