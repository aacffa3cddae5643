//! A file at fault.

use ls_formats::PartName;

/// A file, and the place in it, from 0, at which it is at fault.
#[derive(Clone, Copy)]
pub struct FileFault {
    pub name: PartName,
    pub at: u32,
}
