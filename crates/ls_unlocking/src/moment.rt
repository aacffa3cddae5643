//! A moment is taken.
ghost use Rattle.ls_board.specs.Acts.{Sight};
ghost use Rattle.ls_unlocking.specs.Moments.{Takes};

use ls_board::{Action, Answer, Board, BoardFault};
use std::alloc::Global;

/// Makes the room for one call, and takes the next moment, in milliseconds.
pub(crate) fn take_moment<B: Board>(alloc: Global, board: &mut B) -> Result<u64, BoardFault>
    ensures takes { Takes (B.sight board.old) result (B.sight board.new) }
{
    match board.ready(alloc, 1, 0) {
        Ok(()) => {}
        Err(_) => return Err(BoardFault::Memory),
    }
    let mut out = Vec::new(alloc);
    match board.act(&Action::Now, &mut out) {
        Ok(Answer::Moment(moment)) => Ok(moment),
        Ok(_) => unreachable!(),
        Err(fault) => Err(fault),
    }
}
