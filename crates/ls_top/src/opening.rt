//! The opening of a directory: its users, by the settings file.
ghost use Rattle.std.specs.Prelude.{◌≡◌, ◌≤◌, IsTrue, IfOk};
ghost use Rattle.ls_board.specs.Keeping.{Keeps};
ghost use Rattle.ls_board.specs.declared.action.BoardFault.TheVariants as board_fault;
ghost use Rattle.ls_board.specs.Acts.{Sight};
ghost use Rattle.ls_top.specs.Opening.{Opens, ReadsSettings, IsOpening, NamesSettings};
ghost use Rattle.ls_top.specs.UsersFile.{settings_0, file_of, IsForeign};
ghost use Rattle.ls_top.specs.FoundUsers.{IsFound};

use crate::users_file::read;
use crate::vault::Users;
use ls_board::{Action, Answer, Board, BoardFault};
use ls_bytes::{Memory, Name};
use std::alloc::Global;

/// What the settings file says.
#[derive(Drop)]
pub enum Opening {
    /// It is the file of these users, or absent, and there are none.
    Found(Users),
    /// It is no file of this program.
    Foreign(Name),
}

/// The name of the settings file.
pub fn settings_name(alloc: Global) -> Result<Name, Memory>
    ensures name { IfOk result (λ name. name ≡ settings_0) }
{
    Name::of(alloc, b"settings.0").map_err(|_| Memory)
}

/// Syncs, so that no file is touched any more, and reads the settings file.
pub fn open<B: Board>(alloc: Global, board: &mut B) -> Result<Opening, BoardFault>
    ensures keeps { Keeps board_fault.Failed (B.sight board.old) (B.sight board.new) result }
    ensures named { IfOk result NamesSettings }
    ensures opens { IsTrue (B.sight board.old).told
        → Opens (B.sight board.old) result (B.sight board.new) }
{
    let sync = Action::Sync;
    let read = Action::Read {
        name: settings_name(alloc)?,
    };
    let mut bytes = Vec::new(alloc);
    let answer = read_synced(alloc, board, &sync, &read, &mut bytes)?;
    Ok(found(alloc, answer, &bytes)?)
}

/// Syncs, and reads.
fn read_synced<B: Board>(
    alloc: Global,
    board: &mut B,
    sync: &Action,
    read: &Action,
    out: &mut Vec<u8>,
) -> Result<Answer, BoardFault>
    requires syncs { sync.now ≡ Action.Sync }
    requires reads { read.now ≡ Action.Read settings_0 }
    ensures keeps { Keeps board_fault.Failed (B.sight board.old) (B.sight board.new) result }
    ensures reads { IsTrue (B.sight board.old).told
        → ReadsSettings (B.sight board.old) result out.new.items (B.sight board.new) }
{
    board.ready(alloc, 2, 0)?;
    board.act(sync, out)?;
    board.act(read, out)
}

/// What the answer to the reading says.
fn found(alloc: Global, answer: Answer, bytes: &[u8]) -> Result<Opening, Memory>
    ensures found { IfOk result (IsFound answer bytes.now) }
{
    if answer == Answer::Absent {
        return Ok(Opening::Found(Users::new(alloc)));
    }
    match read(alloc, bytes)? {
        Some(users) => Ok(Opening::Found(users)),
        None => Ok(Opening::Foreign(settings_name(alloc)?)),
    }
}
