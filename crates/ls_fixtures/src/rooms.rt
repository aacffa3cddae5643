//! Actions with the room that they need.
ghost use Rattle.std.specs.Prelude.{◌≡◌, IsTrue, IfOk, IsOk, OnOk};
ghost use Rattle.ls_board.specs.Acts.{Sight, Moves, Rose};
ghost use Rattle.ls_board.specs.declared.action.Part.{Part as Parts};
ghost use Rattle.ls_board.specs.Effect.{Applies, IsSound};
ghost use Rattle.ls_board.specs.Runs.{after_all, AllApply, AllSound};

use ls_board::{Action, Answer, Board, BoardFault, Plan, PlanFault, run_plan};
use ls_bytes::Memory;
use std::alloc::Global;

/// Makes the room for an action, and does it.
pub fn act_with_room<B: Board>(
    alloc: Global,
    board: &mut B,
    action: &Action,
    out: &mut Vec<u8>,
) -> Result<Result<Answer, BoardFault>, Memory>
    requires sound { IsSound (B.sight board.old).slots action.now }
    requires applies { IsTrue (B.sight board.old).told
        → Applies (B.sight board.old).world action.now }
    ensures moves { IsTrue (B.sight board.old).told → IfOk result (λ answer.
        Moves (B.sight board.old) action.now answer out.new.items (B.sight board.new)) }
{
    board.ready(alloc, 1, action.weight())?;
    Ok(board.act(action, out))
}

/// Makes the room for a plan, and runs it.
pub fn run_with_room<B: Board>(
    alloc: Global,
    board: &mut B,
    plan: &Plan,
) -> Result<Result<(), PlanFault>, Memory>
    requires sound { AllSound (B.sight board.old).slots plan.now }
    requires applies { IsTrue (B.sight board.old).told
        → AllApply (B.sight board.old).world plan.now }
    ensures done { IsTrue (B.sight board.old).told → IfOk result (λ ran. OnOk ran
        ((B.sight board.new).world ≡ after_all (B.sight board.old).world plan.now)) }
    // A fault comes only where a count rose.
    ensures complete { ((part : Parts)
        → ¬ (Rose ((B.sight board.old).faults part) ((B.sight board.new).faults part)))
        → IfOk result (λ ran. IsOk ran) }
{
    let (actions, bytes) = plan.weight();
    board.ready(alloc, actions, bytes)?;
    Ok(run_plan(board, plan))
}
