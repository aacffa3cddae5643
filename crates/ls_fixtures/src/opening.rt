//! Settings that are opened.
ghost use Rattle.std.specs.Prelude.{◌≡◌, IsTrue, IfOk, OnOk};
ghost use Rattle.ls_board.specs.Acts.{Sight};
ghost use Rattle.ls_settings.specs.Loaded.{IsReady, AreUntouched};

use ls_board::{Action, Board};
use ls_settings::{OpenRefusal, Settings};
use std::alloc::Global;

/// Puts all changes of files on the disk.
fn sync<B: Board>(alloc: Global, board: &mut B) -> Result<(), OpenRefusal>
    ensures told { (B.sight board.new).told ≡ (B.sight board.old).told }
    ensures untouched { IsTrue (B.sight board.old).told
        → OnOk result (AreUntouched (B.sight board.new).world) }
{
    board.ready(alloc, 1, 0)?;
    let _ = board.act(&Action::Sync, &mut Vec::new(alloc))?;
    Ok(())
}

/// Puts all changes of files on the disk, and opens the settings. A commit may begin then.
pub fn open_settings<B: Board>(alloc: Global, board: &mut B) -> Result<Settings, OpenRefusal>
    ensures told { (B.sight board.new).told ≡ (B.sight board.old).told }
    ensures ready { IsTrue (B.sight board.old).told
        → IfOk result (IsReady (B.sight board.new).world) }
{
    sync(alloc, board)?;
    match Settings::load(alloc, board) {
        Ok(settings) => Ok(settings),
        Err(refusal) => Err(refusal),
    }
}
