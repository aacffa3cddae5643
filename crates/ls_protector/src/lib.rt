//! The states of a protector as types: what was staged can't be named before it was settled, and
//! what was retired can't be let go before its files are gone.
#![tactic(auto)]

mod act;
mod building;
mod drafting;
mod laws;
mod naming;
mod parts;
mod retiring;
mod states;
mod tidy;

pub use building::build_protector;
pub use drafting::{draft_credential, sign};
pub use laws::{
    parts_are_those_of_a_protector, protectors_stand_beside_each_other,
    unnamed_protectors_are_clear, what_is_erased_stays, what_is_settled_stays,
};
pub use naming::{bind_named, found, settle, stage};
pub use parts::{parts_for_credential, parts_for_token};
pub use retiring::retire;
pub use states::{Draft, Durable, Named, Retired, Staged};
pub use tidy::tidy_step;
