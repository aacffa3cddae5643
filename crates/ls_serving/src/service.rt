//! What answers the lines of a script.
ghost use Rattle.std.specs.Prelude.{◌≡◌, ◌≤◌, ◌<◌, ℕ, List, length, take, false, true, IsTrue, IfOk, OnOk, Ok};
ghost use Rattle.ls_board.specs.Keeping.{Keeps};
ghost use Rattle.ls_board.specs.declared.action.Action.{Action as Actions};
ghost use Rattle.ls_board.specs.declared.action.BoardFault.TheVariants as board_fault;
ghost use Rattle.ls_board.specs.declared.world.World.{World as Worlds};
ghost use Rattle.ls_board.specs.Acts.{Sight};
ghost use Rattle.ls_board.specs.Runs.{LeavesOnly};
ghost use Rattle.ls_serving.specs.Calls.{IsOuter, IsOuterMove, IsSilent};
ghost use Rattle.ls_serving.specs.Machine.{Machine};
ghost use Rattle.ls_serving.specs.Met.{MetBetween};
ghost use Rattle.ls_serving.specs.Owed.{Owes};
ghost use Rattle.ls_serving.specs.Serving.{IsOnTheWay, IsStill};
ghost use Rattle.ls_serving.specs.Turns.{StaysInside};

use ls_board::{Board, BoardFault};
use ls_bytes::Bytes;
use std::alloc::Global;

/// What answers the lines of a script, over any board.
pub trait Service {
    /// The machine whose answers it gives.
    ghost machine: { Machine };

    /// In a run that was begun on the first world, it agrees with this stage in the second, and
    /// that world stands for the stage's state durably.
    ghost agrees: { Worlds → Self → Worlds → machine.Stage → Type 0 };

    /// Its calls may be made on this board.
    ghost can: { Self → Sight → Type 0 };

    /// How many files it has yet to remove.
    ghost left: { Self → ℕ };

    /// Serves a line, of which the first 4,097 bytes are given, and answers what is to be said.
    fn serve<B: Board>(
        &mut self,
        alloc: Global,
        board: &mut B,
        line: &[u8],
    ) -> Result<Bytes, BoardFault>
        requires { can self.now (B.sight board.now) }
        ensures keeps { Keeps board_fault.Failed (B.sight board.old) (B.sight board.new) result }
        ensures can { OnOk result (can self.new (B.sight board.new)) }
        ensures size { IfOk result (λ text. length text ≤ 16384) }
        ensures inside { IsTrue (B.sight board.old).told
            → StaysInside (B.sight board.old) (B.sight board.new) }
        ensures silent { IsTrue (B.sight board.old).told
            → IsSilent (B.sight board.old).world (B.sight board.new).world }
        ensures served { IsTrue (B.sight board.old).told → (start : Worlds) (at : machine.Stage)
            → (whole : List ℕ) → line.now ≡ take 4097 whole
            → agrees start self.old (B.sight board.old).world at
            → ((w : Worlds) → MetBetween (B.sight board.old) (B.sight board.new) w
            → machine.apart w at whole)
            → IfOk result (λ text. (text ≡ machine.printed at whole)
            × agrees start self.new (B.sight board.new).world (machine.next at whole)) }
        ensures crash { IsTrue (B.sight board.old).told → (start : Worlds) (at : machine.Stage)
            → (whole : List ℕ) → line.now ≡ take 4097 whole
            → agrees start self.old (B.sight board.old).world at
            → ((w : Worlds) → MetBetween (B.sight board.old) (B.sight board.new) w
            → machine.apart w at whole)
            → LeavesOnly (B.sight board.old) (B.sight board.new)
            (IsOnTheWay machine (B.sight board.old).world.said at whole) };

    /// Removes one file that serves no more, and answers whether none is left.
    fn tidy<B: Board>(&mut self, alloc: Global, board: &mut B) -> Result<bool, BoardFault>
        requires { can self.now (B.sight board.now) }
        ensures keeps { Keeps board_fault.Failed (B.sight board.old) (B.sight board.new) result }
        ensures can { OnOk result (can self.new (B.sight board.new)) }
        ensures fewer { result ≡ Ok false → left self.new < left self.old }
        ensures none { result ≡ Ok true → left self.new ≡ 0 }
        ensures inside { IsTrue (B.sight board.old).told
            → StaysInside (B.sight board.old) (B.sight board.new) }
        ensures silent { IsTrue (B.sight board.old).told
            → IsSilent (B.sight board.old).world (B.sight board.new).world }
        ensures agreed { IsTrue (B.sight board.old).told → (start : Worlds) (at : machine.Stage)
            → agrees start self.old (B.sight board.old).world at
            → OnOk result (agrees start self.new (B.sight board.new).world at) }
        ensures crash { IsTrue (B.sight board.old).told → (start : Worlds) (at : machine.Stage)
            → agrees start self.old (B.sight board.old).world at
            → LeavesOnly (B.sight board.old) (B.sight board.new)
            (IsStill machine (B.sight board.old).world.said (machine.state at)) };

    /// What the loop rests on.
    ghost owes: { (start : Worlds) (s : Self) → Owes machine (agrees start s) };

    /// Its calls may be made after a hearing, a saying and a sync.
    ghost can_still: { (s : Self) (old new : Sight) (a : Actions) → IsOuter a
        → new.told ≡ old.told → new.slots ≡ old.slots
        → (IsTrue old.told → IsOuterMove old.world a new.world) → can s old → can s new };
}
