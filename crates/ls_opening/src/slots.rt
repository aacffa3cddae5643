//! The slots that files name.
ghost use Rattle.std.specs.Prelude.{◌≡◌, ◌++◌, OnOk};
ghost use Rattle.ls_sealing.specs.Protectors.{slot_number};
ghost use Rattle.ls_standing.specs.Opening.{slot_in};

use ls_bytes::{Memory, SlotList};
use ls_formats::{FilePart, SlotFile};

/// The slot that a `weaver` file names, if it names one.
pub fn named_slot(bytes: &[u8]) -> Option<u32>
    ensures same { result ≡ slot_number bytes.now }
{
    match SlotFile::parse(bytes) {
        Ok(file) => Some(file.slot),
        Err(_) => None,
    }
}

/// Adds the slot that a file of this part with these bytes names, if it names one.
pub fn add_slot(earlier: &mut SlotList, part: FilePart, bytes: &[u8]) -> Result<(), Memory>
    ensures added { OnOk result (earlier.new ≡ earlier.old ++ slot_in part bytes.now) }
{
    match part {
        FilePart::Weaver => match named_slot(bytes) {
            Some(slot) => earlier.push(slot),
            None => Ok(()),
        },
        FilePart::SpBlob
        | FilePart::Pwd
        | FilePart::Secdis
        | FilePart::Metrics
        | FilePart::Handle
        | FilePart::E0
        | FilePart::P1
        | FilePart::Resume => Ok(()),
    }
}
