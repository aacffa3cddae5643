//! Whether a world stands for a vault: the definitions of standing, decided by a plain program.
#![tactic(auto)]

mod arming;
mod bare;
mod bare_devices;
mod bare_files;
mod escrow;
mod files;
mod named_slots;
mod number;
mod opening;
mod quiet;
mod settings;
mod standing;
mod user;
mod user_files;
mod walk;

pub use bare::is_bare;
pub use ls_opening::Foreign;
pub use opening::first_foreign;
pub use quiet::is_quiet;
pub use standing::{holds, stands_for};
