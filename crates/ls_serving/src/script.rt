//! A script that is heard whole, before anything is said.
ghost use Rattle.std.specs.Prelude.{◌≡◌, ◌≤◌, IsTrue, IfOk};
ghost use Rattle.ls_board.specs.Keeping.{Keeps};
ghost use Rattle.ls_board.specs.declared.action.BoardFault.TheVariants as board_fault;
ghost use Rattle.ls_serving.specs.Hearing.{OnlyHears, IsHeard};

use crate::calls::{PIECE, hear};
use ls_board::{Board, BoardFault};
use ls_bytes::{Bytes, put_bytes};
use std::alloc::Global;

/// A script that was heard.
#[derive(Drop)]
pub enum Heard {
    /// All bytes of the input.
    All(Bytes),
    /// One byte more came than a script may have.
    TooLong,
}

/// Hears the input to its end, or to one byte more than so many bytes, and says nothing.
pub fn hear_script<B: Board>(
    alloc: Global,
    board: &mut B,
    longest: u32,
) -> Result<Heard, BoardFault>
    ensures keeps { Keeps board_fault.Failed (B.sight board.old) (B.sight board.new) result }
    ensures heard { IsTrue (B.sight board.old).told → IfOk result
        (IsHeard longest (B.sight board.old).world (B.sight board.new).world) }
    ensures calls { IsTrue (B.sight board.old).told
        → OnlyHears (B.sight board.old) (B.sight board.new) }
{
    let mut text = Bytes::of(alloc, &[])?;
    let mut piece = Vec::new(alloc);
    let mut left = longest;
    while left > 0 {
        hear(alloc, board, left.min(PIECE), &mut piece)?;
        if piece.is_empty() {
            return Ok(Heard::All(text));
        }
        put_bytes(&mut text, &piece)?;
        left -= piece.len() as u32;
    }
    hear(alloc, board, 1, &mut piece)?;
    if piece.is_empty() {
        Ok(Heard::All(text))
    } else {
        Ok(Heard::TooLong)
    }
}
