//! What the devices answer, as answers of a board.
ghost use Rattle.std.specs.Prelude.{◌≡◌};
ghost use Rattle.ls_board.specs.Effect.{read_answer, cell_answer};

use ls_board::Answer;
use ls_weaver::SlotRead;

/// What the reading of a slot answers.
pub fn answer_of_slot(read: SlotRead) -> Answer
    ensures same { result ≡ read_answer read }
{
    match read {
        SlotRead::Value(value) => Answer::Value(value),
        SlotRead::Wrong(rest) => Answer::Wrong(rest),
        SlotRead::Throttled(rest) => Answer::Throttled(rest),
    }
}

/// What the taking out of the resume cell answers, where it held this.
pub fn answer_of_cell(cell: Option<[u8; 32]>) -> Answer
    ensures same { result ≡ cell_answer cell }
{
    match cell {
        Some(key) => Answer::Key(key),
        None => Answer::Empty,
    }
}
