//! What a resume comes to.

use crate::fault::FileFault;
use crate::secrets::SecretRows;

/// What a resume comes to.
#[derive(Drop)]
pub enum ResumeEnd {
    /// The secrets of the users that were armed.
    Resumed(SecretRows),
    /// No users are armed, or the cell was empty.
    NotArmed,
    /// The boot is below the one at which users were armed, or more than five above it.
    Expired {
        /// The boot at which users were armed.
        armed: u32,
        /// The boot of this resume.
        boot: u32,
    },
    /// The first file at fault.
    Corrupt(FileFault),
}
