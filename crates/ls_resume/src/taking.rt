//! Taking the key out of the cell.
ghost use Rattle.std.specs.Prelude.{◌≡◌, Option, List, ℕ, Some};
ghost use Rattle.ls_board.specs.declared.action.Action.TheVariants.{ResumeTake};
ghost use Rattle.ls_board.specs.Acts.{Sight};
ghost use Rattle.ls_board.specs.Effect.{cell_answer};
ghost use Rattle.ls_resume.specs.Learning.{Learns};

use ls_board::{Action, Answer, Board, BoardFault};
use std::alloc::Global;

/// The key that was in the cell.
fn key_in(answer: Answer) -> Option<[u8; 32]>
    ensures same { (cell : Option (List ℕ)) → answer ≡ cell_answer cell → result ≡ cell }
{
    match answer {
        Answer::Key(key) => Some(key),
        _ => None,
    }
}

/// Takes the key out of the cell, if there is one.
pub(crate) fn take_key<B: Board>(
    alloc: Global,
    board: &mut B,
) -> Result<Option<[u8; 32]>, BoardFault>
    ensures learns { Learns (Some ResumeTake) (λ w. w.cell)
        (B.sight board.old) result (B.sight board.new) }
{
    board.ready(alloc, 1, 0)?;
    let mut out = Vec::new(alloc);
    let answer = board.act(&Action::ResumeTake, &mut out)?;
    Ok(key_in(answer))
}
