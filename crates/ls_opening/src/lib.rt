//! What opening checks of the files that a record names: of one file by what was read of it, and of
//! all of them on any board, up to the first at fault.
#![tactic(auto)]

mod checks;
mod files;
mod foreign;
mod number;
mod opening;
mod place;
mod slots;
mod walk;

pub use checks::{Beside, bytes_fault, file_fault};
pub use files::{part_file, part_text};
pub use foreign::Foreign;
pub use number::blob_version;
pub use opening::first_foreign;
pub use slots::{add_slot, named_slot};
