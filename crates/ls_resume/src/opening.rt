//! Opening the `resume` files of armed users.
ghost use Rattle.std.specs.Prelude.{◌≡◌, ◌++◌, ◌∷◌, [], None, IfOk};
ghost use Rattle.ls_board.specs.Acts.{Sight};
ghost use Rattle.ls_resume.specs.Ascending.{IsAscending};
ghost use Rattle.ls_resume.specs.Secrets.{users_of};
ghost use Rattle.ls_resume.specs.Learning.{Learns, told_as};
ghost use Rattle.ls_resume.specs.Each.{each_of, found_behind};
ghost use Rattle.ls_resume.specs.Resuming.{secret_of, open_of, found_users};

use crate::fault::FileFault;
use crate::reading::Found;
use crate::secrets::{SecretRow, SecretRows};
use ls_board::{Board, BoardFault};
use ls_bytes::Memory;
use ls_chain::{ChainFault, open_resume};
use ls_formats::{FilePart, PartName};
use ls_secret::Secret;
use std::alloc::Global;

/// The secret of a user, or its `resume` file at fault.
fn secret_in(
    user: u32,
    opened: Result<Secret, ChainFault>,
) -> Result<Result<SecretRow, FileFault>, BoardFault>
    ensures same { result ≡ told_as (secret_of user) opened }
{
    let part = FilePart::Resume;
    match opened {
        Ok(secret) => Ok(Ok(SecretRow { user, secret })),
        Err(ChainFault::Corrupt(spot)) => Ok(Err(FileFault {
            name: PartName { user, id: 0, part },
            at: spot.at,
        })),
        Err(ChainFault::Failed(part)) => Err(BoardFault::Failed(part)),
        Err(ChainFault::Memory) => Err(BoardFault::Memory),
    }
}

/// Opens the `resume` file of a user.
fn open_user<B: Board>(
    alloc: Global,
    board: &mut B,
    once: &[u8; 32],
    found: &Found,
) -> Result<Result<SecretRow, FileFault>, BoardFault>
    ensures learns { Learns None (λ w. open_of once.now w found.now)
        (B.sight board.old) result (B.sight board.new) }
    ensures user { IfOk result (λ opened. IfOk opened (λ row. row.user ≡ found.now.user)) }
{
    secret_in(found.user, open_resume(alloc, board, once, &found.file))
}

/// These secrets, and that of a user above all of theirs.
fn with_secret(rows: SecretRows, row: SecretRow) -> Result<SecretRows, Memory>
    requires ascending { IsAscending (users_of rows ++ row.user ∷ []) }
    ensures put { IfOk result (λ all. all ≡ rows ++ row ∷ []) }
{
    let mut rows = rows;
    rows.push(row)?;
    Ok(rows)
}

/// Opens the `resume` files of these users, behind those that were opened before, up to the first
/// at fault.
pub(crate) fn open_users<B: Board>(
    alloc: Global,
    board: &mut B,
    once: &[u8; 32],
    found: &[Found],
    rows: SecretRows,
) -> Result<Result<SecretRows, FileFault>, BoardFault>
    requires ascending { IsAscending (users_of rows ++ found_users found.now) }
    ensures learns { Learns None (λ w. found_behind rows (each_of (open_of once.now w) found.now))
        (B.sight board.old) result (B.sight board.new) }
    ensures users { IfOk result (λ opened. IfOk opened (λ all.
        users_of all ≡ users_of rows ++ found_users found.now)) }
{
    match found {
        [] => Ok(Ok(rows)),
        [first, rest @ ..] => match open_user(alloc, board, once, first)? {
            Err(fault) => Ok(Err(fault)),
            Ok(row) => {
                let rows = with_secret(rows, row)?;
                open_users(alloc, board, once, rest, rows)
            }
        },
    }
}
