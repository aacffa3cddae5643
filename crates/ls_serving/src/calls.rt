//! The calls that a run makes by itself: it hears, says and syncs.
ghost use Rattle.std.specs.Prelude.{◌≡◌, ◌≤◌, length, IsTrue, OnOk};
ghost use Rattle.ls_board.specs.Keeping.{Keeps};
ghost use Rattle.ls_board.specs.declared.action.BoardFault.TheVariants as board_fault;
ghost use Rattle.ls_serving.specs.Calls.{Hears, Says, Syncs};

use ls_board::{Action, Board, BoardFault};
use ls_bytes::Bytes;
use std::alloc::Global;

/// The most bytes that are heard at once.
pub const PIECE: u32 = 4096;

/// Hears at most so many bytes. There are none where the input is at its end.
pub fn hear<B: Board>(
    alloc: Global,
    board: &mut B,
    max: u32,
    piece: &mut Vec<u8>,
) -> Result<(), BoardFault>
    requires some { 1 ≤ max }
    ensures keeps { Keeps board_fault.Failed (B.sight board.old) (B.sight board.new) result }
    ensures few { OnOk result (length piece.new.items ≤ max) }
    ensures hears { IsTrue (B.sight board.old).told
        → Hears (B.sight board.old) max result piece.new.items (B.sight board.new) }
{
    let hear = Action::Hear { max };
    board.ready(alloc, 1, 0)?;
    board.act(&hear, piece)?;
    Ok(())
}

/// Says a text by one call.
pub fn say<B: Board>(
    alloc: Global,
    board: &mut B,
    text: Bytes,
    out: &mut Vec<u8>,
) -> Result<(), BoardFault>
    requires short { length text ≤ 16384 }
    ensures keeps { Keeps board_fault.Failed (B.sight board.old) (B.sight board.new) result }
    ensures says { IsTrue (B.sight board.old).told
        → Says (B.sight board.old) text result (B.sight board.new) }
{
    let room = text.as_slice().len() as u64;
    let say = Action::Say { bytes: text };
    board.ready(alloc, 1, room)?;
    board.act(&say, out)?;
    Ok(())
}

/// Makes one sync.
pub fn sync<B: Board>(alloc: Global, board: &mut B, out: &mut Vec<u8>) -> Result<(), BoardFault>
    ensures keeps { Keeps board_fault.Failed (B.sight board.old) (B.sight board.new) result }
    ensures syncs { IsTrue (B.sight board.old).told
        → Syncs (B.sight board.old) result (B.sight board.new) }
{
    let sync = Action::Sync;
    board.ready(alloc, 1, 0)?;
    board.act(&sync, out)?;
    Ok(())
}
