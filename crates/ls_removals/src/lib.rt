//! Commands that take away: a token, all tokens of a user, and a user.
#![tactic(auto)]

mod changing;
mod ending;
mod escrow;
mod going;
mod letting;
mod own;
mod planning;
mod refusing;
mod rows;
mod tokens;
mod users;
mod waiting;

pub use escrow::escrow_off;
pub use tokens::token_drop;
pub use users::user_drop;
