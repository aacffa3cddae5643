//! Reading a file.
ghost use Rattle.std.specs.Prelude.{◌≡◌, Some, None};
ghost use Rattle.ls_board.specs.Acts.{Sight};
ghost use Rattle.ls_board.specs.Effect.{file_at};
ghost use Rattle.ls_reading.specs.Reading.{Sees};

use ls_board::{Action, Answer, Board, BoardFault};
use ls_bytes::{Bytes, Name};
use std::alloc::Global;

/// The file that was read.
fn file_in(answer: Answer, out: Vec<u8>) -> Option<Bytes>
    ensures absent { answer ≡ Answer.Absent → result ≡ None }
    ensures there { (answer ≡ Answer.Absent → ⊥) → result ≡ Some out.items }
{
    if answer == Answer::Absent {
        None
    } else {
        Some(Bytes::from(out))
    }
}

/// Reads a file by its action.
fn read_by<B: Board>(
    alloc: Global,
    board: &mut B,
    name: &[u8],
    read: &Action,
) -> Result<Option<Bytes>, BoardFault>
    requires reads { read.now ≡ Action.Read name.now }
    ensures sees { Sees (λ w. file_at w name.now)
        (B.sight board.old) result (B.sight board.new) }
{
    board.ready(alloc, 1, 0)?;
    let mut out = Vec::new(alloc);
    let answer = board.act(read, &mut out)?;
    Ok(file_in(answer, out))
}

/// What the file of a name holds, if it is there. It makes the room for its one call.
pub fn read_file<B: Board>(
    alloc: Global,
    board: &mut B,
    name: Name,
) -> Result<Option<Bytes>, BoardFault>
    ensures sees { Sees (λ w. file_at w name)
        (B.sight board.old) result (B.sight board.new) }
{
    let text = Bytes::of(alloc, name.as_slice())?;
    read_by(alloc, board, text.as_slice(), &Action::Read { name })
}
