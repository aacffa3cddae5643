//! A turn of the service on a board: what a session knows, when it agrees with a state of the
//! machine, and what serving a command does.
#![tactic(auto)]

mod known;
mod laws;
mod performing;
mod session;
mod stop;

pub use known::{find_entry, take_out};
pub use laws::{
    a_fresh_session_agrees, a_moment_or_noise_keeps_a_session, a_session_of_an_empty_board_agrees,
    images_stand_for_the_vault_of_a_session, the_calls_of_the_loop_keep_a_session,
};
pub use performing::perform;
pub use session::{Opened, Pending, Session};
pub use stop::{Cause, Stop};
