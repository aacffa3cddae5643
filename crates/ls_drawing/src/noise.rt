//! Noise is drawn.
ghost use Rattle.ls_board.specs.Acts.{Sight};
ghost use Rattle.ls_drawing.specs.Drawing.{Draws};

use ls_board::{Action, Board, BoardFault};
use ls_bytes::Bytes;
use std::alloc::Global;

/// Makes the room for one drawing, and draws so many bytes. Past the end of the noise they are
/// zeros.
pub fn draw<B: Board>(alloc: Global, board: &mut B, len: u32) -> Result<Bytes, BoardFault>
    ensures draws { Draws len (B.sight board.old) result (B.sight board.new) }
{
    match board.ready(alloc, 1, 0) {
        Ok(()) => {}
        Err(_) => return Err(BoardFault::Memory),
    }
    let mut out = Vec::new(alloc);
    match board.act(&Action::Draw { len }, &mut out) {
        Ok(_) => Ok(Bytes::from(out)),
        Err(fault) => Err(fault),
    }
}
