//! The names and the contents of protector files.
#![tactic(auto)]

mod array;
mod fault;
mod field;
mod file;
mod handle;
mod hex_number;
mod kinds;
mod laws;
mod metrics;
mod name;
mod name_fault;
mod part;
mod part_name;
mod parts;
mod pwd;
mod side;
mod slot;

pub use fault::FormatFault;
pub use file::file_fault;
pub use handle::HandleFile;
pub use laws::names_are_apart;
pub use metrics::MetricsFile;
pub use name::FileName;
pub use part::FilePart;
pub use part_name::PartName;
pub use parts::Parts;
pub use pwd::PwdData;
pub use side::Side;
pub use slot::SlotFile;
