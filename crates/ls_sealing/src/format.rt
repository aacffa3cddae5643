//! The format of each part of a protector and of its user.
ghost use Rattle.std.specs.Prelude.{◌≡◌};
ghost use Rattle.ls_sealing.specs.PartFormats.{format_fault};

use ls_blob::SpBlob;
use ls_formats::{FilePart, file_fault};

/// The first place, from 0, at which bytes leave the format of a part, if they do.
pub fn format_fault(part: FilePart, bytes: &[u8]) -> Option<u32>
    ensures same { result ≡ format_fault part bytes.now }
{
    if part == FilePart::SpBlob {
        SpBlob::fault(bytes)
    } else {
        file_fault(part, bytes)
    }
}
