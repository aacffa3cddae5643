//! Room for what ends an arming.
ghost use Rattle.std.specs.Prelude.{◌≡◌, ◌+◌, IfSome, OnOk, length, sum_by};
ghost use Rattle.ls_board.specs.Acts.{Sight, Readies};
ghost use Rattle.ls_board.specs.Effect.{weight_of};
ghost use Rattle.ls_change.specs.Work.{actions_of};
ghost use Rattle.ls_rebooting.specs.Ending.{HasRoomBehind};

use ls_board::Board;
use ls_bytes::Memory;
use ls_change::Work;
use std::alloc::Global;

/// The room that one action without bytes and then the change use up. None where they are more than
/// a board can be asked for.
fn weight_behind(work: &Work) -> Option<(u32, u64)>
    ensures actions { IfSome result (λ room. room.0 ≡ length (actions_of work.now) + 1) }
    ensures bytes { IfSome result (λ room. room.1 ≡ sum_by weight_of (actions_of work.now)) }
{
    let (actions, bytes) = work.weight()?;
    let actions = actions.checked_add(1)?;
    Some((actions, bytes))
}

/// Makes the room for one action without bytes and then the change.
pub(crate) fn make_room<B: Board>(alloc: Global, board: &mut B, work: &Work) -> Result<(), Memory>
    ensures readies { Readies (B.sight board.old) 0 0 result (B.sight board.new) }
    ensures room { OnOk result (HasRoomBehind (B.sight board.new) work.now) }
{
    let Some((actions, bytes)) = weight_behind(work) else {
        return Err(Memory);
    };
    board.ready(alloc, actions, bytes)
}
