//! Reading the files of armed users.
ghost use Rattle.std.specs.Prelude.{◌≡◌, ◌<◌, ◌++◌, ◌∷◌, [], None, IfOk};
ghost use Rattle.std.specs.List.{AllByRecursion};
ghost use Rattle.ls_board.specs.Acts.{Sight};
ghost use Rattle.ls_resume.specs.Learning.{Learns, told_as};
ghost use Rattle.ls_resume.specs.Each.{each_of, found_behind};
ghost use Rattle.ls_resume.specs.Resuming.{protector_of, name_of, files_of, read_of, found_users};

use crate::fault::FileFault;
use ls_board::{Board, BoardFault};
use ls_bytes::{Memory, Rows};
use ls_chain::{ChainFault, ResumeFile, read_resume};
use ls_formats::{FilePart, PartName};
use ls_record::UserRow;
use std::alloc::Global;

/// What was read of a user.
#[derive(Drop)]
pub struct Found {
    pub user: u32,
    pub file: ResumeFile,
}

/// The protector of a user's credential, and 0 where the user has no row.
fn protector_of(rows: &[UserRow], user: u32) -> u64
    ensures same { result ≡ protector_of rows.now user }
{
    match rows {
        [] => 0,
        [row, rest @ ..] => {
            if row.user == user {
                row.protector
            } else {
                protector_of(rest, user)
            }
        }
    }
}

/// The name of a user's file; a part of a user has the id 0.
pub(crate) fn name_of(user: u32, id: u64, part: FilePart) -> PartName
    requires id { 0 < id }
    ensures same { result ≡ name_of user id part }
{
    let id = match part {
        FilePart::Handle | FilePart::E0 | FilePart::P1 | FilePart::Resume => 0,
        FilePart::SpBlob
        | FilePart::Pwd
        | FilePart::Secdis
        | FilePart::Weaver
        | FilePart::Metrics => id,
    };
    PartName { user, id, part }
}

/// The files of a user, or the one at fault.
fn files_in(
    user: u32,
    id: u64,
    read: Result<ResumeFile, ChainFault>,
) -> Result<Result<Found, FileFault>, BoardFault>
    requires id { 0 < id }
    ensures same { result ≡ told_as (files_of user id) read }
{
    match read {
        Ok(file) => Ok(Ok(Found { user, file })),
        Err(ChainFault::Corrupt(spot)) => Ok(Err(FileFault {
            name: name_of(user, id, spot.part),
            at: spot.at,
        })),
        Err(ChainFault::Failed(part)) => Err(BoardFault::Failed(part)),
        Err(ChainFault::Memory) => Err(BoardFault::Memory),
    }
}

/// Reads the files of a user.
fn read_user<B: Board>(
    alloc: Global,
    board: &mut B,
    rows: &[UserRow],
    user: u32,
) -> Result<Result<Found, FileFault>, BoardFault>
    requires id { 0 < protector_of rows.now user }
    ensures learns { Learns None (λ w. read_of rows.now w user)
        (B.sight board.old) result (B.sight board.new) }
    ensures user { IfOk result (λ read. IfOk read (λ found. found.user ≡ user)) }
{
    let id = protector_of(rows, user);
    files_in(user, id, read_resume(alloc, board, user, id))
}

/// These files, and those of one more user.
fn with_files(found: Rows<Found>, files: Found) -> Result<Rows<Found>, Memory>
    ensures put { IfOk result (λ all. all ≡ found ++ files ∷ []) }
{
    let mut found = found;
    found.push(files)?;
    Ok(found)
}

/// Reads the files of these users, behind those that were read before, up to the first at fault.
pub(crate) fn read_users<B: Board>(
    alloc: Global,
    board: &mut B,
    rows: &[UserRow],
    users: &[u32],
    found: Rows<Found>,
) -> Result<Result<Rows<Found>, FileFault>, BoardFault>
    requires ids { AllByRecursion (λ user. 0 < protector_of rows.now user) users.now }
    ensures learns { Learns None (λ w. found_behind found (each_of (read_of rows.now w) users.now))
        (B.sight board.old) result (B.sight board.new) }
    ensures users { IfOk result (λ read. IfOk read (λ all.
        found_users all ≡ found_users found ++ users.now)) }
{
    match users {
        [] => Ok(Ok(found)),
        [user, rest @ ..] => match read_user(alloc, board, rows, *user)? {
            Err(fault) => Ok(Err(fault)),
            Ok(files) => {
                let found = with_files(found, files)?;
                read_users(alloc, board, rows, rest, found)
            }
        },
    }
}
