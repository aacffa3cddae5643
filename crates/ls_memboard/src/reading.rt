//! What a file holds, by the calls that changed files.
ghost use Rattle.std.specs.Prelude.{◌≡◌, ◌≤◌, ◌+◌, Some, IfOk, OnOk, length, replicate};
ghost use Rattle.std.specs.FinMap.Entries.{find};
ghost use Rattle.ls_board.specs.Effect.{poked_bytes};
ghost use Rattle.ls_board.specs.Order.{byte_cmp};
ghost use Rattle.ls_memboard.specs.Calls.{call_of, IsIn};
ghost use Rattle.ls_memboard.specs.Contents.{shown, content_after, contents_after};
ghost use Rattle.ls_memboard.specs.Replay.{AllIn};

use crate::call::{Entry, Kind};
use crate::pool::part;
use ls_board::FileTable;
use std::alloc::AllocError;

/// Makes it hold these bytes.
pub(crate) fn hold(out: &mut Vec<u8>, bytes: &[u8]) -> Result<(), AllocError>
    ensures held { OnOk result (out.new.items ≡ bytes.now) }
{
    out.clear();
    out.extend_from_slice(bytes)
}

/// Makes it hold so many zeros.
pub(crate) fn hold_zeros(out: &mut Vec<u8>, len: u32) -> Result<(), AllocError>
    ensures held { OnOk result (out.new.items ≡ replicate len 0) }
{
    out.clear();
    out.resize(len as usize, 0)
}

/// Writes bytes over those from this place on.
pub(crate) fn poke(out: &mut Vec<u8>, at: u32, bytes: &[u8]) -> Result<(), AllocError>
    ensures poked { OnOk result (out.new.items ≡ poked_bytes out.old.items at bytes.now) }
{
    let from = at as usize;
    if from <= out.len() && bytes.len() <= out.len() - from {
        out[from..from + bytes.len()].copy_from_slice(bytes);
        return Ok(());
    }
    out.truncate(from);
    out.extend_from_slice(bytes)
}

/// The file of this name after one call, and whether it is there.
fn step(
    pool: &[u8],
    e: &Entry,
    name: &[u8],
    found: bool,
    out: &mut Vec<u8>,
) -> Result<bool, AllocError>
    requires { IsIn pool.now e.now.kept }
    ensures { IfOk result (λ there. shown there out.new.items
        ≡ content_after (call_of pool.now e.now.kept) e.now.whole name.now
        (shown found out.old.items)) }
{
    if !e.whole {
        return Ok(found);
    }
    let kept = e.kept;
    if !name.cmp(part(pool, kept.at, kept.name)).is_eq() {
        return Ok(found);
    }
    let bytes = part(pool, kept.at + kept.name, kept.bytes);
    match kept.kind {
        Kind::Make { len } => {
            hold_zeros(out, len)?;
            Ok(true)
        }
        Kind::Put => {
            hold(out, bytes)?;
            Ok(true)
        }
        Kind::Poke { at } => {
            if found {
                poke(out, at, bytes)?;
            }
            Ok(found)
        }
        Kind::Remove => Ok(false),
        _ => Ok(found),
    }
}

/// What the file of this name holds after these calls, in `out`, and whether it is there.
pub(crate) fn read_file(
    files: &FileTable,
    changes: &[Entry],
    pool: &[u8],
    name: &[u8],
    out: &mut Vec<u8>,
) -> Result<bool, AllocError>
    requires { AllIn pool.now changes.now }
    ensures { IfOk result (λ there. shown there out.new.items
        ≡ contents_after pool.now changes.now name.now (find byte_cmp name.now files.now)) }
{
    out.clear();
    let mut found = false;
    if let Some(bytes) = files.content(name) {
        out.extend_from_slice(bytes)?;
        found = true;
    }
    for e in changes {
        found = step(pool, e, name, found, out)?;
    }
    Ok(found)
}
