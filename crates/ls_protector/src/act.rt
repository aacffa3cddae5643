//! One action that needs no memory.
ghost use Rattle.std.specs.Prelude.{◌∷◌, []};
ghost use Rattle.ls_board.specs.Acts.{Sight};
ghost use Rattle.ls_board.specs.Planned.{IsPlanned};
ghost use Rattle.ls_board.specs.Runs.{CanRun};
ghost use Rattle.ls_protector.specs.Steps.{Steps};

use ls_board::{Action, Board, BoardFault, Part};
use std::alloc::Global;

/// Does one action. It takes no memory: the allocator is that of the empty list for its answer.
pub(crate) fn act_one<B: Board>(board: &mut B, alloc: Global, action: &Action) -> Result<(), Part>
    requires run { CanRun (B.sight board.old) (action.now ∷ []) }
    requires planned { IsPlanned action.now }
    ensures steps { Steps (B.sight board.old) (action.now ∷ []) result (B.sight board.new) }
{
    let mut out = Vec::new(alloc);
    match board.act(action, &mut out) {
        Ok(_) => Ok(()),
        Err(BoardFault::Failed(part)) => Err(part),
        Err(BoardFault::Memory) => unreachable!(),
    }
}
