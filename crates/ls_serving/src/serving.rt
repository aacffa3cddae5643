//! One line, from its text to its reply, and the end of a script.
ghost use Rattle.std.specs.Prelude.{◌≡◌, ◌++◌, ◌∷◌, [], ℕ, List, take, IsTrue, OnOk, OnErr};
ghost use Rattle.ls_board.specs.Keeping.{Keeps};
ghost use Rattle.ls_board.specs.declared.action.BoardFault.TheVariants as board_fault;
ghost use Rattle.ls_board.specs.Acts.{Sight};
ghost use Rattle.ls_serving.specs.Serving.{Serving, CutShort, ComesNext};

use crate::calls::{say, sync};
use crate::service::Service;
use ls_board::{Board, BoardFault};
use std::alloc::Global;

/// Serves one line, of which the first 4,097 bytes are given, says its reply, and removes one file
/// that serves no more.
pub fn serve_line<B: Board, S: Service>(
    alloc: Global,
    board: &mut B,
    service: &mut S,
    line: &[u8],
    out: &mut Vec<u8>,
) -> Result<(), BoardFault>
    requires can { S.can service.now (B.sight board.now) }
    ensures keeps { Keeps board_fault.Failed (B.sight board.old) (B.sight board.new) result }
    ensures can { OnOk result (S.can service.new (B.sight board.new)) }
    ensures input { IsTrue (B.sight board.old).told
        → (B.sight board.new).world.input ≡ (B.sight board.old).world.input }
    ensures served { IsTrue (B.sight board.old).told
        → (start : Sight) (first : S.machine.Stage) (lines : List (List ℕ)) (whole : List ℕ)
        → line.now ≡ take 4097 whole → ComesNext start lines whole
        → Serving S.machine (S.agrees start.world service.old) start (B.sight board.old) first lines
        → OnOk result (Serving S.machine (S.agrees start.world service.new) start
        (B.sight board.new) first (lines ++ whole ∷ [])) }
    ensures cut { IsTrue (B.sight board.old).told
        → (start : Sight) (first : S.machine.Stage) (lines : List (List ℕ)) (whole : List ℕ)
        → line.now ≡ take 4097 whole → ComesNext start lines whole
        → Serving S.machine (S.agrees start.world service.old) start (B.sight board.old) first lines
        → OnErr result (CutShort S.machine start (B.sight board.new) first) }
{
    let text = service.serve(alloc, board, line)?;
    say(alloc, board, text, out)?;
    service.tidy(alloc, board)?;
    Ok(())
}

/// Removes all files that serve no more, and makes one sync.
pub fn finish<B: Board, S: Service>(
    alloc: Global,
    board: &mut B,
    service: &mut S,
    out: &mut Vec<u8>,
) -> Result<(), BoardFault>
    requires can { S.can service.now (B.sight board.now) }
    ensures keeps { Keeps board_fault.Failed (B.sight board.old) (B.sight board.new) result }
    ensures none { OnOk result (S.left service.new ≡ 0) }
    ensures synced { IsTrue (B.sight board.old).told
        → OnOk result ((B.sight board.new).world.touched ≡ []) }
    ensures input { IsTrue (B.sight board.old).told
        → (B.sight board.new).world.input ≡ (B.sight board.old).world.input }
    ensures served { IsTrue (B.sight board.old).told
        → (start : Sight) (first : S.machine.Stage) (lines : List (List ℕ))
        → Serving S.machine (S.agrees start.world service.old) start (B.sight board.old) first lines
        → OnOk result (Serving S.machine (S.agrees start.world service.new) start
        (B.sight board.new) first lines) }
    ensures cut { IsTrue (B.sight board.old).told
        → (start : Sight) (first : S.machine.Stage) (lines : List (List ℕ))
        → Serving S.machine (S.agrees start.world service.old) start (B.sight board.old) first lines
        → OnErr result (CutShort S.machine start (B.sight board.new) first) }
{
    let mut left = true;
    while left {
        left = !service.tidy(alloc, board)?;
    }
    sync(alloc, board, out)
}
