//! A change of the vault by protectors as types: new ones are named once they are on the disk, and
//! others are let go once no record names them.
#![tactic(auto)]

mod clearing;
mod laws;
mod lists;
mod others;
mod places;
mod running;
mod staging;
mod weight;
mod work;

pub use laws::changes_of_few_protectors;
pub use running::exchange;
pub use work::Exchange;
