//! The file that names a protector's Weaver slot.
ghost use Rattle.std.specs.Prelude.{◌≡◌, length, drop};
ghost use Rattle.byteorder.specs.Endian.{big_number};
ghost use Rattle.ls_formats.specs.Format.{first_fault};
ghost use Rattle.ls_formats.specs.Faults.{Parses, HasFault};
ghost use Rattle.ls_formats.specs.Files.{format_of};

use crate::fault::FormatFault;
use crate::file::file_fault;
use crate::part::FilePart;
use byteorder::{BigEndian, ByteOrder};
use ls_bytes::{Bytes, Memory, put_be32};
use std::alloc::Global;

/// The number of a Weaver slot, as a file of five bytes.
#[derive(Clone, Copy, Debug, PartialEq, Eq)]
pub struct SlotFile {
    pub slot: u32,
}

impl SlotFile {
    ghost use Rattle.std.specs.Prelude.{IfOk};
    ghost use Rattle.ls_formats.specs.Contents.{IsSlot, slot_bytes};

    /// The slot that the file names.
    pub fn parse(bytes: &[u8]) -> Result<SlotFile, FormatFault>
        ensures exact { Parses IsSlot slot_bytes bytes.now result }
        ensures fault { HasFault result (first_fault (format_of FilePart.Weaver) bytes.now) }
    {
        match file_fault(FilePart::Weaver, bytes) {
            Some(at) => Err(FormatFault::Bad { at }),
            None => Ok(SlotFile {
                slot: slot_of(bytes),
            }),
        }
    }

    /// The one spelling of the slot.
    pub fn print(&self, alloc: Global) -> Result<Bytes, Memory>
        ensures spelled { IfOk result (λ bytes. bytes ≡ slot_bytes self.now) }
        ensures kept { IsSlot self.now }
    {
        let slot = self.slot;
        let mut bytes = Bytes::of(alloc, &[1])?;
        put_be32(&mut bytes, slot)?;
        Ok(bytes)
    }
}

/// The slot behind the version.
fn slot_of(bytes: &[u8]) -> u32
    requires { length bytes.now ≡ 5 }
    ensures same { result ≡ big_number 4 (drop 1 bytes.now) }
{
    BigEndian::read_u32(&bytes[1..])
}
