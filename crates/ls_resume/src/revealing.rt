//! What is told of users who were resumed.
ghost use Rattle.std.specs.Prelude.{◌≡◌, ◌<◌, IfSome, option_copied};
ghost use Rattle.std.specs.List.{AllByRecursion};
ghost use Rattle.ls_board.specs.Acts.{Sight};
ghost use Rattle.ls_chain.specs.Trying.{LeavesAsked};
ghost use Rattle.ls_revealing.specs.Revealing.{secure_asked};
ghost use Rattle.ls_resume.specs.Each.{found_behind};
ghost use Rattle.ls_resume.specs.Learning.{told_as};
ghost use Rattle.ls_resume.specs.Passing.{Passes};
ghost use Rattle.ls_resume.specs.Telling.{row_of, named_in, told_end, world_behind, all_told, all_asked, TellsImage};

use crate::fault::FileFault;
use crate::reading::name_of;
use crate::secrets::{SecretRow, SecretRows};
use ls_board::{Board, BoardFault};
use ls_bytes::Rows;
use ls_chain::ChainFault;
use ls_record::{Record, UserRow};
use ls_revealing::reveal;
use ls_script::{Revealed, RevealedList};
use ls_secret::Secret;
use std::alloc::Global;

/// The row of a user.
fn row_of(rows: &[UserRow], user: u32) -> Option<&UserRow>
    requires ids { AllByRecursion (λ row. 0 < row.protector) rows.now }
    ensures same { option_copied result ≡ row_of rows.now user }
    ensures id { IfSome result (λ row. 0 < row.now.protector) }
{
    match rows {
        [] => None,
        [row, rest @ ..] => {
            if row.user == user {
                Some(row)
            } else {
                row_of(rest, user)
            }
        }
    }
}

/// What is told of a user, or its file at fault.
fn named_in(
    row: &UserRow,
    told: Result<Revealed, ChainFault>,
) -> Result<Result<Revealed, FileFault>, BoardFault>
    requires id { 0 < row.now.protector }
    ensures same { result ≡ told_as (named_in row.now) told }
{
    match told {
        Ok(told) => Ok(Ok(told)),
        Err(ChainFault::Corrupt(spot)) => Ok(Err(FileFault {
            name: name_of(row.user, row.protector, spot.part),
            at: spot.at,
        })),
        Err(ChainFault::Failed(part)) => Err(BoardFault::Failed(part)),
        Err(ChainFault::Memory) => Err(BoardFault::Memory),
    }
}

/// What is told of one user.
fn reveal_one<B: Board>(
    alloc: Global,
    board: &mut B,
    row: &UserRow,
    secret: &Secret,
) -> Result<Result<Revealed, FileFault>, BoardFault>
    requires id { 0 < row.now.protector }
    ensures passes { Passes (world_behind row.now secret.now)
        (λ w. LeavesAsked w (secure_asked row.now secret.now w))
        (told_end row.now secret.now) (B.sight board.old) result (B.sight board.new) }
{
    named_in(row, reveal(alloc, board, row, secret))
}

/// What is told of these users, behind what was told before, up to the first file at fault.
fn reveal_rows<B: Board>(
    alloc: Global,
    board: &mut B,
    rows: &[UserRow],
    secrets: &[SecretRow],
    told: RevealedList,
) -> Result<Result<RevealedList, FileFault>, BoardFault>
    requires ids { AllByRecursion (λ row. 0 < row.protector) rows.now }
    ensures passes { Passes (all_asked rows.now secrets.now) (TellsImage rows.now secrets.now)
        (λ w. found_behind told (all_told rows.now secrets.now w))
        (B.sight board.old) result (B.sight board.new) }
{
    match secrets {
        [] => Ok(Ok(told)),
        [first, rest @ ..] => {
            let Some(row) = row_of(rows, first.user) else {
                return reveal_rows(alloc, board, rows, rest, told);
            };
            match reveal_one(alloc, board, row, &first.secret)? {
                Err(fault) => Ok(Err(fault)),
                Ok(one) => {
                    let mut told = told;
                    told.push(one)?;
                    reveal_rows(alloc, board, rows, rest, told)
                }
            }
        }
    }
}

/// What is told of the users with these secrets, in their order, or the first file at fault: of
/// each the Gatekeeper is asked for the `handle` file, where the user has a secure id, and then the
/// `metrics` file is read, where it has a credential. Of a user without a row nothing is told.
pub fn reveal_resumed<B: Board>(
    alloc: Global,
    board: &mut B,
    rec: &Record,
    secrets: &SecretRows,
) -> Result<Result<RevealedList, FileFault>, BoardFault>
    ensures passes { Passes (all_asked rec.now.users secrets.now)
        (TellsImage rec.now.users secrets.now) (all_told rec.now.users secrets.now)
        (B.sight board.old) result (B.sight board.new) }
{
    let told = Rows::new(alloc);
    reveal_rows(alloc, board, rec.users.as_slice(), secrets.as_slice(), told)
}
