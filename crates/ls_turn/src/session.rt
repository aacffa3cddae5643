//! What one opening knows.

use crate::stop::Cause;
use ls_bytes::Bytes;
use ls_credential::Metrics;
use ls_protector::{Named, Retired};
use ls_secret::Secret;
use ls_settings::Settings;
use std::alloc::Global;

/// A user who is opened or captured, with its secret and what is shown of its credential.
#[derive(Drop)]
pub struct Opened {
    /// The number of the user.
    pub user: u32,
    pub secret: Secret,
    /// What is counted of its credential; None without one.
    pub metrics: Option<Metrics>,
}

/// A token that was added and isn't active yet.
#[derive(Drop)]
pub struct Pending {
    /// The number of its user.
    pub user: u32,
    /// The id that it will have as an active token.
    pub id: u64,
    /// What will have to be offered, 1 to 64 bytes.
    pub token: Bytes,
}

/// One opening of the service. It has to be spent by `close`: it may hold protectors that were
/// retired and whose files are left.
pub struct Session {
    pub alloc: Global,
    /// How many Weaver slots the board has.
    pub slots: u32,
    /// The number of the boot in which it was opened.
    pub boot: u32,
    pub settings: Settings,
    /// The protectors that the record names, in any order.
    pub named: Vec<Named>,
    /// The protectors that no record names any more and whose files may be left, the oldest first.
    pub retired: Vec<Retired>,
    /// The opened users, by ascending number.
    pub opened: Vec<Opened>,
    /// The tokens that aren't active yet, in the order in which they were added.
    pub pending: Vec<Pending>,
    /// Whether each user who is unlocked is captured for an arming.
    pub prepared: bool,
    /// The captured users, by ascending number.
    pub captured: Vec<Opened>,
    /// Why an earlier call stopped; None while none has.
    pub stopped: Option<Cause>,
}

/// Spends each of these with what is left of it.
fn abandon_all(mut retired: Vec<Retired>) {
    while let Some(one) = retired.pop() {
        one.abandon();
    }
    retired.destroy_empty();
}

impl Session {
    /// Ends the session. It makes no call and takes no memory. What was retired and isn't gone is
    /// left to the next opening.
    pub fn close(self) {
        let Session {
            alloc: _,
            slots: _,
            boot: _,
            settings: _,
            named: _,
            retired,
            opened: _,
            pending: _,
            prepared: _,
            captured: _,
            stopped: _,
        } = self;
        abandon_all(retired);
    }
}
