//! Actions that are no protector's.
ghost use Rattle.std.specs.Prelude.{IsTrue};
ghost use Rattle.ls_board.specs.Acts.{Sight};
ghost use Rattle.ls_board.specs.Reach.{AllTouchOnly};
ghost use Rattle.ls_board.specs.Runs.{CanRun};
ghost use Rattle.ls_exchange.specs.Turns.{Runs, storage};

use ls_board::{Board, Part, Plan, run_plan};

/// Does actions that change what is stored and nothing else.
pub(crate) fn run_others<B: Board>(board: &mut B, others: &Plan) -> Result<(), Part>
    requires run { CanRun (B.sight board.old) others.now }
    requires stored { IsTrue (B.sight board.old).told → AllTouchOnly storage others.now }
    ensures runs { Runs (B.sight board.old) others.now result (B.sight board.new) }
{
    match run_plan(board, others) {
        Ok(()) => Ok(()),
        Err(fault) => Err(fault.part),
    }
}
