//! Standard input, taken whole before the run.
ghost use Rattle.std.specs.Prelude.{◌≡◌, ◌≤◌, ◌<◌, ◌^◌, Err, IfOk, IfErr, IfSome, length};
ghost use Rattle.ls_top.specs.declared.status.Status.TheVariants.{TooLong};
ghost use Rattle.locksettings.specs.Input.{script_of, status_of_read, IsWithoutScript};

use ls_board::Part;
use ls_bytes::Bytes;
use ls_top::Status;
use std::alloc::Global;
use std::io::{ErrorKind, Read};

/// The most bytes that are taken.
const MOST_INPUT: u64 = 1 << 20;

/// All that the reader gives, at most 1,048,576 bytes, or how the program ends without it.
pub fn take_script<R: Read + Drop>(alloc: Global, reader: R) -> Result<Bytes, Status>
    // Where it is known what the reader gives, that is the script, and is too long otherwise.
    ensures whole { IfOk result (λ script. IfSome (R.remaining reader) (λ bytes. script ≡ bytes)) }
    ensures bound { IfOk result (λ script. length script ≤ 2 ^ 20) }
    ensures too_long { result ≡ Err TooLong
        → IfSome (R.remaining reader) (λ bytes. 2 ^ 20 < length bytes) }
    ensures causes { IfErr result IsWithoutScript }
{
    let mut bytes = Vec::new(alloc);
    match reader.take(MOST_INPUT + 1).read_to_end(&mut bytes) {
        Ok(_) => script_of(bytes),
        Err(e) => Err(status_of(e.kind())),
    }
}

/// The bytes, unless they are too many.
fn script_of(bytes: Vec<u8>) -> Result<Bytes, Status>
    ensures same { result ≡ script_of bytes.items }
{
    if bytes.len() as u64 <= MOST_INPUT {
        Ok(Bytes::from(bytes))
    } else {
        Err(Status::TooLong)
    }
}

/// How the program ends where a read failed.
fn status_of(kind: ErrorKind) -> Status
    ensures same { result ≡ status_of_read kind }
{
    match kind {
        ErrorKind::OutOfMemory => Status::Memory,
        _ => Status::Fault(Part::Input),
    }
}
