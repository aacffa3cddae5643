//! A board to begin on.
ghost use Rattle.std.specs.Prelude.{◌≡◌, ◌≤◌, [], length, IfOk};
ghost use Rattle.ls_memboard.specs.Seen.{fresh, sight_of};

use ls_board::World;
use ls_bytes::Memory;
use ls_memboard::{FailureList, MemBoard};
use std::alloc::Global;

/// A board in memory on this world, in which no call fails.
pub fn board_on(alloc: Global, world: World) -> Result<MemBoard, Memory>
    requires slots { length world.slots ≤ 256 }
    ensures seen { IfOk result (λ board. sight_of board ≡ fresh world []) }
{
    MemBoard::new(alloc, world, FailureList::new(alloc))
}
