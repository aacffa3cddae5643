//! The beginning of an opening: a sync, and the settings.
ghost use Rattle.ls_board.specs.Acts.{Sight};
ghost use Rattle.ls_session.specs.Opening.{SyncsFirst, Begins};

use ls_board::{Action, Board, BoardFault};
use ls_settings::{OpenRefusal, Settings};
use std::alloc::Global;

/// Puts all changes of files on the disk.
fn sync<B: Board>(alloc: Global, board: &mut B) -> Result<(), BoardFault>
    ensures syncs { SyncsFirst (B.sight board.old) result (B.sight board.new) }
{
    let sync = Action::Sync;
    board.ready(alloc, 1, 0)?;
    let mut out = Vec::new(alloc);
    board.act(&sync, &mut out)?;
    Ok(())
}

/// Syncs the board, and loads its settings.
pub(crate) fn begin<B: Board>(alloc: Global, board: &mut B) -> Result<Settings, OpenRefusal>
    ensures begins { Begins (B.sight board.old) result (B.sight board.new) }
{
    let _synced = match sync(alloc, board) {
        Ok(done) => done,
        Err(fault) => return Err(OpenRefusal::from(fault)),
    };
    match Settings::load(alloc, board) {
        Ok(settings) => Ok(settings),
        Err(refusal) => Err(refusal),
    }
}
