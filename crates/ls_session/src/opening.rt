//! Opening the service on a board.
ghost use Rattle.std.specs.Prelude.{◌≡◌};
ghost use Rattle.ls_board.specs.Acts.{Sight};
ghost use Rattle.ls_session.specs.Opening.{Opens};
ghost use Rattle.ls_turn.specs.Fresh.{IsFresh};

use crate::begin::begin;
use crate::checking::known;
use ls_board::Board;
use ls_protector::Named;
use ls_settings::{OpenRefusal, Settings};
use ls_sweep::sweep_unnamed;
use ls_turn::{Session, a_fresh_session_agrees};
use std::alloc::Global;

/// A session in which nothing has happened yet.
fn fresh(alloc: Global, slots: u32, boot: u32, settings: Settings, named: Vec<Named>) -> Session
    ensures fresh { IsFresh boot slots result }
    ensures settings { result.settings ≡ settings }
    ensures named { result.named ≡ named }
{
    Session {
        alloc,
        slots,
        boot,
        settings,
        named,
        retired: Vec::new(alloc),
        opened: Vec::new(alloc),
        pending: Vec::new(alloc),
        prepared: false,
        captured: Vec::new(alloc),
        stopped: None,
    }
}

/// Opens the service on a board: puts all changes of files on the disk, loads the settings, checks the
/// files that they name, in order, up to the first at fault, and takes away all that they don't name.
/// A file that isn't one of the service is left alone.
pub fn open<B: Board>(alloc: Global, boot: u32, board: &mut B) -> Result<Session, OpenRefusal>
    ensures opens { Opens (B.sight board.old) boot result (B.sight board.new) }
{
    let settings = match begin(alloc, board) {
        Ok(settings) => settings,
        Err(refusal) => return Err(refusal),
    };
    let named = match known(alloc, board, &settings) {
        Ok(named) => named,
        Err(refusal) => return Err(refusal),
    };
    let _swept = match sweep_unnamed(alloc, board, settings.record()) {
        Ok(done) => done,
        Err(fault) => return Err(OpenRefusal::from(fault)),
    };
    // For what the session agrees with.
    a_fresh_session_agrees();
    let slots = board.slots();
    Ok(fresh(alloc, slots, boot, settings, named))
}
