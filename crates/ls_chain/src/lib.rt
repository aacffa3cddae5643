//! What lies behind a device's answer: the files and the key that lead to a secret, read in their
//! order up to the first that is at fault.
#![tactic(auto)]

mod asking;
mod attempting;
mod credential;
mod fault;
mod handle_file;
mod laws;
mod metrics_file;
mod offered;
mod opening;
mod reading;
mod resume_file;
mod token;
mod token_attempt;
mod trying;

pub use asking::{HandleAnswer, ask_handle, ask_slot};
pub use attempting::attempt;
pub use credential::open_credential;
pub use fault::{ChainFault, Spot};
pub use handle_file::check_handle;
pub use laws::{
    attempts_open_what_is_sealed, the_first_check_that_fails_is_answered,
    what_seals_leads_to_the_secret,
};
pub use metrics_file::read_metrics;
pub use offered::{Offered, read_offer, spot_name};
pub use opening::open_outer;
pub use reading::{read_file, sound_file};
pub use resume_file::{ResumeFile, open_resume, read_resume};
pub use token::{TokenEnd, TokenFiles, read_token};
pub use token_attempt::open_token;
pub use trying::{AttemptEnd, try_handle, try_slot};
