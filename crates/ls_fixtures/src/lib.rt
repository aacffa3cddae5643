//! What runs over a board have in common: a board to begin on, actions and plans with the room that
//! they need, and settings that are opened.
#![tactic(auto)]

mod boards;
mod opening;
mod rooms;

pub use boards::board_on;
pub use opening::open_settings;
pub use rooms::{act_with_room, run_with_room};
