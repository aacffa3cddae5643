//! A protector is built, with what its command makes besides, and put on the disk.
ghost use Rattle.std.specs.Prelude.{◌≡◌, ◌++◌, ◌∷◌, [], IsTrue, IfOk, IfErr, OnOk};
ghost use Rattle.ls_board.specs.Acts.{Sight};
ghost use Rattle.ls_board.specs.Runs.{CanRun, Did, FailedIn, LeavesOnly, PlanImage};
ghost use Rattle.ls_board.specs.Keeping.{Keeps};
ghost use Rattle.ls_protector.specs.Clear.{IsClearOf};
ghost use Rattle.ls_protector.specs.Settled.{IsSettled};
ghost use Rattle.ls_protector.specs.Steps.{building_of};

use crate::naming::{settle, stage};
use crate::states::{Draft, Durable};
use ls_board::{Board, Part, Plan, run_plan};

/// Stages a protector, does other actions, and settles it: one plan, which ends with a sync. It
/// takes no memory. After a fault the protector is abandoned.
pub fn build_protector<B: Board>(
    board: &mut B,
    draft: Draft,
    others: &Plan,
) -> Result<Durable, Part>
    requires run { CanRun (B.sight board.old) (building_of draft others.now) }
    requires clear { IsClearOf (B.sight board.old) draft.parts }
    ensures parts { IfOk result (λ durable. durable ≡ draft.parts) }
    ensures did { OnOk result
        (Did (B.sight board.old) (building_of draft others.now) (B.sight board.new)) }
    ensures failed { IfErr result (λ part.
        FailedIn (B.sight board.old) (building_of draft others.now) part (B.sight board.new)) }
    ensures keeps { Keeps (λ part. part) (B.sight board.old) (B.sight board.new) result }
    ensures crash { IsTrue (B.sight board.old).told
        → LeavesOnly (B.sight board.old) (B.sight board.new)
        (PlanImage (B.sight board.old).world (building_of draft others.now)) }
    ensures settled { IsTrue (B.sight board.old).told
        → IfOk result (λ durable. IsSettled (B.sight board.new).world durable) }
{
    let staged = match stage(board, draft) {
        Ok(staged) => staged,
        Err((retired, part)) => {
            retired.abandon();
            return Err(part);
        }
    };
    if let Err(fault) = run_plan(board, others) {
        staged.abandon();
        return Err(fault.part);
    }
    match settle(board, staged) {
        Ok(durable) => Ok(durable),
        Err((retired, part)) => {
            retired.abandon();
            Err(part)
        }
    }
}
