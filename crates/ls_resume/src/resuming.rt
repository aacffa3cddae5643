//! Resuming what was armed.
ghost use Rattle.std.specs.Prelude.{◌≡◌, ◌<◌, None, Some, Ok, IfOk, IfSome};
ghost use Rattle.std.specs.List.{AllByRecursion};
ghost use Rattle.ls_board.specs.declared.action.Action.TheVariants.{ResumeTake};
ghost use Rattle.ls_board.specs.Acts.{Sight};
ghost use Rattle.ls_vault.specs.Arming.{is_good};
ghost use Rattle.ls_resume.specs.declared.ending.ResumeEnd.TheVariants.{NotArmed};
ghost use Rattle.ls_resume.specs.Ascending.{IsAscending};
ghost use Rattle.ls_resume.specs.Learning.{Learns};
ghost use Rattle.ls_resume.specs.Each.{each_of};
ghost use Rattle.ls_resume.specs.Resuming.{protector_of, read_of, found_users};
ghost use Rattle.ls_resume.specs.Resuming.{opened_end, found_end, taken_end, armed_end, resume_end, taking};
ghost use Rattle.ls_resume.specs.Resuming.{AreOfFound, IsByFiles, KeepsBoots};
ghost use Rattle.ls_resume.specs.Secrets.{users_of};

use crate::ending::ResumeEnd;
use crate::fault::FileFault;
use crate::opening::open_users;
use crate::reading::{Found, read_users};
use crate::secrets::SecretRows;
use crate::taking::take_key;
use ls_arming::Arming;
use ls_board::{Board, BoardFault};
use ls_bytes::Rows;
use ls_record::{Record, UserRow};
use std::alloc::Global;

/// Whether the boot is the armed one or one of the five after it.
fn is_good(armed: u32, boot: u32) -> bool
    ensures same { result ≡ is_good armed boot }
{
    !(boot < armed || armed.saturating_add(5) < boot)
}

/// What was opened, or the file at fault.
fn opened_end(opened: Result<SecretRows, FileFault>) -> ResumeEnd
    ensures same { result ≡ opened_end opened }
{
    match opened {
        Ok(rows) => ResumeEnd::Resumed(rows),
        Err(fault) => ResumeEnd::Corrupt(fault),
    }
}

/// Opens what was read, by the key that the cell held.
fn open_found<B: Board>(
    alloc: Global,
    board: &mut B,
    once: &[u8; 32],
    found: Result<Rows<Found>, FileFault>,
) -> Result<ResumeEnd, BoardFault>
    requires ascending { IfOk found (λ all. IsAscending (found_users all)) }
    ensures learns { Learns None (found_end once.now found)
        (B.sight board.old) result (B.sight board.new) }
    ensures opens { IfOk result (IsByFiles (AreOfFound found)) }
{
    match found {
        Err(fault) => Ok(ResumeEnd::Corrupt(fault)),
        Ok(found) => {
            let rows = SecretRows::new(alloc);
            let opened = open_users(alloc, board, once, found.as_slice(), rows)?;
            Ok(opened_end(opened))
        }
    }
}

/// Takes the cell, and opens what was read where the boot is good.
fn take_and_open<B: Board>(
    alloc: Global,
    board: &mut B,
    armed: u32,
    boot: u32,
    found: Result<Rows<Found>, FileFault>,
) -> Result<ResumeEnd, BoardFault>
    requires ascending { IfOk found (λ all. IsAscending (found_users all)) }
    ensures learns { Learns (Some ResumeTake) (λ w. taken_end armed boot found w w.cell)
        (B.sight board.old) result (B.sight board.new) }
    ensures boots { IfOk result (KeepsBoots armed boot (AreOfFound found)) }
{
    let Some(once) = take_key(alloc, board)? else {
        return Ok(ResumeEnd::NotArmed);
    };
    if !is_good(armed, boot) {
        return Ok(ResumeEnd::Expired { armed, boot });
    }
    open_found(alloc, board, &once, found)
}

/// Resumes the users of an arming.
fn resume_armed<B: Board>(
    alloc: Global,
    board: &mut B,
    rows: &[UserRow],
    armed: &Arming,
    boot: u32,
) -> Result<ResumeEnd, BoardFault>
    requires ids { AllByRecursion (λ user. 0 < protector_of rows.now user) armed.now.users }
    requires ascending { IsAscending armed.now.users }
    ensures learns { Learns (Some ResumeTake) (armed_end rows.now boot (Some armed.now))
        (B.sight board.old) result (B.sight board.new) }
    ensures boots { IfOk result (KeepsBoots armed.now.boot boot
        (λ secrets. users_of secrets ≡ armed.now.users)) }
{
    let users = armed.users.as_slice();
    let found = read_users(alloc, board, rows, users, Rows::new(alloc))?;
    take_and_open(alloc, board, armed.boot, boot, found)
}

/// Resumes the users that a record arms. The files of each are read before the cell is taken, and
/// opened behind it. Where no users are armed, nothing is done.
pub fn resume<B: Board>(
    alloc: Global,
    board: &mut B,
    rec: &Record,
    boot: u32,
) -> Result<ResumeEnd, BoardFault>
    // It answers what the world holds. Nothing changes but the cell, which is empty behind each
    // answer where users are armed.
    ensures learns { Learns (taking rec.now.armed) (resume_end rec.now boot)
        (B.sight board.old) result (B.sight board.new) }
    // Where the record arms no users, nothing is done.
    ensures unarmed { rec.now.armed ≡ None →
        (result ≡ Ok NotArmed) × (B.sight board.new ≡ B.sight board.old) }
    // On any board it has expired by the two boots alone, and the secrets are those of the armed
    // users.
    ensures boots { IfSome rec.now.armed (λ a. IfOk result
        (KeepsBoots a.boot boot (λ secrets. users_of secrets ≡ a.users))) }
{
    match &rec.armed {
        None => Ok(ResumeEnd::NotArmed),
        Some(armed) => resume_armed(alloc, board, rec.users.as_slice(), armed, boot),
    }
}
