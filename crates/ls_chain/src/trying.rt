//! An offer to a device, and the chain behind its answer.
ghost use Rattle.std.specs.Prelude.{◌≡◌, ◌<◌, IfOk};
ghost use Rattle.ls_board.specs.Acts.{Sight};
ghost use Rattle.ls_board.specs.declared.action.Action.TheVariants.{WeaverRead, GkVerify};
ghost use Rattle.ls_sealing.specs.Chain.{weaver_key, gatekeeper_password};
ghost use Rattle.ls_chain.specs.Looking.{Looks};
ghost use Rattle.ls_chain.specs.Links.{links_at};
ghost use Rattle.ls_chain.specs.Trying.{Tries};
ghost use Rattle.ls_chain.specs.Attempting.{opened_end, slot_end, handle_end, IsOfKind};

use crate::asking::{HandleAnswer, ask_handle, ask_slot};
use crate::credential::open_credential;
use crate::fault::{ChainFault, Spot};
use ls_board::Board;
use ls_bytes::Bytes;
use ls_credential::Kind;
use ls_formats::FilePart;
use ls_sealing::{gatekeeper_password, weaver_key};
use ls_secret::Secret;
use ls_weaver::SlotRead;
use std::alloc::Global;

/// How an attempt ends.
#[derive(Drop)]
pub enum AttemptEnd {
    Opened(Secret),
    /// The credential is of another kind than this one, which is stored.
    WrongKind(Kind),
    /// The text is wrong: the milliseconds that the device rests now.
    Wrong(u64),
    /// The device rests: the milliseconds that are left.
    Throttled(u64),
}

/// The chain behind a device that accepted.
pub fn opened<B: Board>(
    alloc: Global,
    board: &mut B,
    user: u32,
    id: u64,
    stretched: &[u8; 32],
    value: &Option<[u8; 16]>,
) -> Result<AttemptEnd, ChainFault>
    requires id { 0 < id }
    ensures looks { Looks (λ w. opened_end (links_at w user id) stretched.now value.now)
        (B.sight board.old) result (B.sight board.new) }
    ensures of_kind { IfOk result IsOfKind }
{
    let secret = open_credential(alloc, board, user, id, stretched, value)?;
    Ok(AttemptEnd::Opened(secret))
}

/// Asks a slot with a stretched text, and where it is right goes through the chain.
pub fn try_slot<B: Board>(
    alloc: Global,
    board: &mut B,
    user: u32,
    id: u64,
    slot: u32,
    stretched: &[u8; 32],
    moment: u64,
) -> Result<AttemptEnd, ChainFault>
    requires id { 0 < id }
    requires slot { slot < (B.sight board.old).slots }
    ensures tries { Tries (WeaverRead slot (weaver_key stretched.now) moment)
        (slot_end user id slot stretched.now moment)
        (B.sight board.old) result (B.sight board.new) }
    ensures of_kind { IfOk result IsOfKind }
{
    if board.ready(alloc, 1, 0).is_err() {
        return Err(ChainFault::Memory);
    }
    let mut out = Vec::new(alloc);
    match ask_slot(board, &mut out, slot, &weaver_key(stretched), moment) {
        Ok(SlotRead::Value(value)) => opened(alloc, board, user, id, stretched, &Some(value)),
        Ok(SlotRead::Wrong(rest)) => Ok(AttemptEnd::Wrong(rest)),
        Ok(SlotRead::Throttled(rest)) => Ok(AttemptEnd::Throttled(rest)),
        Err(part) => Err(ChainFault::Failed(part)),
    }
}

/// Asks the Gatekeeper for a stretched text, and where it accepts goes through the chain.
pub fn try_handle<B: Board>(
    alloc: Global,
    board: &mut B,
    user: u32,
    id: u64,
    handle: &[u8; 49],
    stretched: &[u8; 32],
    moment: u64,
) -> Result<AttemptEnd, ChainFault>
    requires id { 0 < id }
    ensures tries { Tries (GkVerify handle.now (gatekeeper_password stretched.now) moment)
        (handle_end user id handle.now stretched.now moment)
        (B.sight board.old) result (B.sight board.new) }
    ensures of_kind { IfOk result IsOfKind }
{
    let password = Bytes::of(alloc, &gatekeeper_password(stretched))?;
    if board.ready(alloc, 1, 64).is_err() {
        return Err(ChainFault::Memory);
    }
    let mut out = Vec::new(alloc);
    match ask_handle(board, &mut out, handle, password, moment) {
        Ok(HandleAnswer::Accepted(_)) => opened(alloc, board, user, id, stretched, &None),
        Ok(HandleAnswer::Wrong(rest)) => Ok(AttemptEnd::Wrong(rest)),
        Ok(HandleAnswer::Throttled(rest)) => Ok(AttemptEnd::Throttled(rest)),
        Ok(HandleAnswer::Unknown) => Err(ChainFault::Corrupt(Spot {
            part: FilePart::Pwd,
            at: 21,
        })),
        Err(part) => Err(ChainFault::Failed(part)),
    }
}
