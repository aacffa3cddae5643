//! Asking a device.
ghost use Rattle.std.specs.Prelude.{◌≡◌};
ghost use Rattle.ls_board.specs.Acts.{Sight, CanAct};
ghost use Rattle.ls_board.specs.Effect.{read_answer};
ghost use Rattle.ls_chain.specs.Asking.{AsksDevice, verify_of};

use ls_board::{Action, Answer, Board, BoardFault, Part};
use ls_bytes::Bytes;
use ls_weaver::SlotRead;

/// What the Gatekeeper answers to a handle and a password.
#[derive(Clone, Copy, Debug, PartialEq, Eq)]
pub enum HandleAnswer {
    /// The handle is that of the password, for this id.
    Accepted(u64),
    /// The password is wrong: the milliseconds that the record rests now.
    Wrong(u64),
    /// The record rests: the milliseconds that are left.
    Throttled(u64),
    /// The handle is of no known version, or its id has no record.
    Unknown,
}

/// Asks the Gatekeeper whether a handle is that of this password. It takes no memory.
pub fn ask_handle<B: Board>(
    board: &mut B,
    out: &mut Vec<u8>,
    handle: &[u8; 49],
    password: Bytes,
    moment: u64,
) -> Result<HandleAnswer, Part>
    requires can { CanAct (B.sight board.old) (Action.GkVerify handle.now password moment) }
    ensures asks { AsksDevice (Action.GkVerify handle.now password moment) verify_of
        (B.sight board.old) result (B.sight board.new) }
{
    let action = Action::GkVerify {
        handle: *handle,
        password,
        moment,
    };
    match board.act(&action, out) {
        Ok(Answer::Accepted(sid)) => Ok(HandleAnswer::Accepted(sid)),
        Ok(Answer::Wrong(rest)) => Ok(HandleAnswer::Wrong(rest)),
        Ok(Answer::Throttled(rest)) => Ok(HandleAnswer::Throttled(rest)),
        Ok(Answer::Unknown) => Ok(HandleAnswer::Unknown),
        Ok(_) => unreachable!(),
        Err(BoardFault::Failed(part)) => Err(part),
        Err(BoardFault::Memory) => unreachable!(),
    }
}

/// Asks a slot for its value. It takes no memory.
pub fn ask_slot<B: Board>(
    board: &mut B,
    out: &mut Vec<u8>,
    slot: u32,
    key: &[u8; 16],
    moment: u64,
) -> Result<SlotRead, Part>
    requires can { CanAct (B.sight board.old) (Action.WeaverRead slot key.now moment) }
    ensures asks { AsksDevice (Action.WeaverRead slot key.now moment) read_answer
        (B.sight board.old) result (B.sight board.new) }
{
    let action = Action::WeaverRead {
        slot,
        key: *key,
        moment,
    };
    match board.act(&action, out) {
        Ok(Answer::Value(value)) => Ok(SlotRead::Value(value)),
        Ok(Answer::Wrong(rest)) => Ok(SlotRead::Wrong(rest)),
        Ok(Answer::Throttled(rest)) => Ok(SlotRead::Throttled(rest)),
        Ok(_) => unreachable!(),
        Err(BoardFault::Failed(part)) => Err(part),
        Err(BoardFault::Memory) => unreachable!(),
    }
}
