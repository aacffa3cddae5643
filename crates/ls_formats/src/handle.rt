//! The file with the Gatekeeper handle of a user's secret.
ghost use Rattle.std.specs.Prelude.{◌≡◌, length};
ghost use Rattle.ls_formats.specs.Format.{first_fault};
ghost use Rattle.ls_formats.specs.Faults.{Parses, HasFault};
ghost use Rattle.ls_formats.specs.Files.{format_of};

use crate::array::array_at;
use crate::fault::FormatFault;
use crate::file::file_fault;
use crate::part::FilePart;
use ls_bytes::{Bytes, Memory};
use std::alloc::Global;

/// A Gatekeeper handle, as a file of its 49 bytes.
#[derive(Clone, Copy, Debug, PartialEq, Eq)]
pub struct HandleFile {
    pub handle: [u8; 49],
}

impl HandleFile {
    ghost use Rattle.std.specs.Prelude.{IfOk};
    ghost use Rattle.ls_formats.specs.Contents.{IsHandle, handle_bytes};

    /// The handle that the file is.
    pub fn parse(bytes: &[u8]) -> Result<HandleFile, FormatFault>
        ensures exact { Parses IsHandle handle_bytes bytes.now result }
        ensures fault { HasFault result (first_fault (format_of FilePart.Handle) bytes.now) }
    {
        match file_fault(FilePart::Handle, bytes) {
            Some(at) => Err(FormatFault::Bad { at }),
            None => Ok(HandleFile {
                handle: handle_of(bytes),
            }),
        }
    }

    /// The one spelling of the handle.
    pub fn print(&self, alloc: Global) -> Result<Bytes, Memory>
        ensures spelled { IfOk result (λ bytes. bytes ≡ handle_bytes self.now) }
    {
        Bytes::of(alloc, &self.handle)
    }
}

/// All the bytes.
fn handle_of(bytes: &[u8]) -> [u8; 49]
    requires { length bytes.now ≡ 49 }
    ensures same { result ≡ bytes.now }
{
    array_at(bytes, 0)
}
