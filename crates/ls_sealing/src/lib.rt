//! What a protector seals, by which derivations, and which actions build it.
#![tactic(auto)]

mod chain;
mod credential;
mod drawn;
mod format;
mod laws;
mod pushing;
mod token;

pub use chain::{
    USUAL_COST, discardable_share, gatekeeper_password, layered, stretched, stretched_by,
    stretched_default, value_share, weaver_key,
};
pub use credential::credential_plan;
pub use format::format_fault;
pub use laws::{
    askings_keep_what_is_sealed, built_protectors_seal, devices_know_what_was_sealed,
    only_what_is_equal_opens, protectors_are_erased_by_plans, protectors_are_retired_by_plans,
    protectors_are_written_by_plans, protectors_hold_what_was_written, protectors_spare_each_other,
    what_is_held_fixes_the_secret, what_is_held_follows_the_parts, what_is_written_holds_bytes,
    what_is_written_seals,
};
pub use pushing::Place;
pub use token::token_plan;
