//! What a user may rely on: laws of the vault machine, over every state and every history. Each is
//! a clause of a function that does nothing.
#![tactic(auto)]

mod armings;
mod captured;
mod consistency;
mod credentials;
mod endings;
mod fresh;
mod limits;
mod lines;
mod locks;
mod pin_lengths;
mod refusals;
mod replies;
mod restarts;
mod scripts;
mod secrets;
mod throttle;
mod tokens;
mod unlocks;
mod wrong_texts;

pub use armings::armings_open_once;
pub use captured::{armed_users_were_captured, captured_users_were_unlocked};
pub use consistency::{
    armings_leave_nobody_dead, credentials_keep_their_rules, states_stay_consistent,
};
pub use credentials::credentials_stay;
pub use endings::{prepares_end_the_arming, resumes_end_the_arming};
pub use fresh::fresh_numbers_are_first;
pub use limits::{limits_are_kept, numbers_ascend};
pub use lines::{answers_are_lines, lines_are_answered};
pub use locks::locks_close;
pub use pin_lengths::pin_lengths_are_guarded;
pub use refusals::refusals_change_nothing;
pub use replies::replies_are_small;
pub use restarts::restarts_begin_anew;
pub use scripts::scripts_are_histories;
pub use secrets::secrets_stay;
pub use throttle::wrong_texts_stay_counted;
pub use tokens::{activations_keep_tokens, removed_tokens_stay_removed};
pub use unlocks::{only_unlocks_open, unlocks_are_exact, unlocks_open};
pub use wrong_texts::wrong_texts_are_answered;
