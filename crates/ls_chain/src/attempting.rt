//! An attempt with a credential.
ghost use Rattle.std.specs.Prelude.{◌≡◌, ◌≢◌, ◌<◌, Ok, IfOk, IfSome, is_some};
ghost use Rattle.ls_board.specs.Acts.{Sight};
ghost use Rattle.ls_chain.specs.declared.trying.AttemptEnd.TheVariants.{WrongKind};
ghost use Rattle.ls_chain.specs.Trying.{MayTry};
ghost use Rattle.ls_chain.specs.Attempting.{handle_asked, device_asked, stored_end, device_end};
ghost use Rattle.ls_chain.specs.Attempting.{attempt_asked, attempt_end, IsOfKind};

use crate::fault::ChainFault;
use crate::offered::{Offered, read_offer};
use crate::trying::{AttemptEnd, opened, try_handle, try_slot};
use ls_board::Board;
use ls_credential::{Credential, Kind};
use ls_formats::Parts;
use std::alloc::Global;

/// Without Weaver: asks the Gatekeeper where there is a handle, and else no device.
fn try_stored<B: Board>(
    alloc: Global,
    board: &mut B,
    user: u32,
    id: u64,
    handle: &Option<[u8; 49]>,
    stretched: &[u8; 32],
    moment: u64,
) -> Result<AttemptEnd, ChainFault>
    requires id { 0 < id }
    ensures tries { MayTry (λ w. handle_asked handle.now stretched.now moment)
        (stored_end user id handle.now stretched.now moment)
        (B.sight board.old) result (B.sight board.new) }
    ensures of_kind { IfOk result IsOfKind }
{
    match handle {
        Some(handle) => try_handle(alloc, board, user, id, handle, stretched, moment),
        None => opened(alloc, board, user, id, stretched, &None),
    }
}

/// Asks the device of a protector with what is offered to it.
fn try_offer<B: Board>(
    alloc: Global,
    board: &mut B,
    user: u32,
    id: u64,
    slot: Option<u32>,
    offered: &Offered,
    moment: u64,
) -> Result<AttemptEnd, ChainFault>
    requires id { 0 < id }
    requires slot { IfSome slot (λ slot. slot < (B.sight board.old).slots) }
    ensures tries { MayTry (λ w. device_asked slot moment offered.now)
        (device_end user id slot moment offered.now)
        (B.sight board.old) result (B.sight board.new) }
    ensures of_kind { IfOk result IsOfKind }
{
    match slot {
        Some(slot) => try_slot(alloc, board, user, id, slot, &offered.stretched, moment),
        None => try_stored(
            alloc,
            board,
            user,
            id,
            &offered.handle,
            &offered.stretched,
            moment,
        ),
    }
}

/// An attempt with a text of the kind that is stored.
fn attempt_text<B: Board>(
    alloc: Global,
    board: &mut B,
    user: u32,
    id: u64,
    weaver: bool,
    slot: Option<u32>,
    kind: Kind,
    text: &[u8],
    moment: u64,
) -> Result<AttemptEnd, ChainFault>
    requires id { 0 < id }
    requires slot { IfSome slot (λ slot. slot < (B.sight board.old).slots) }
    ensures tries { MayTry (attempt_asked user id weaver slot kind text.now moment)
        (attempt_end user id weaver slot kind text.now moment)
        (B.sight board.old) result (B.sight board.new) }
    ensures of_kind { IfOk result IsOfKind }
{
    let offered = read_offer(alloc, board, user, id, weaver, kind, text)?;
    try_offer(alloc, board, user, id, slot, &offered, moment)
}

/// An attempt with a credential on a protector of this kind, at this moment. A credential of
/// another kind is refused before any action.
pub fn attempt<B: Board>(
    alloc: Global,
    board: &mut B,
    parts: &Parts,
    stored: Kind,
    credential: &Credential,
    moment: u64,
) -> Result<AttemptEnd, ChainFault>
    requires id { 0 < parts.now.id }
    requires slot { IfSome parts.now.slot (λ slot. slot < (B.sight board.old).slots) }
    ensures kind { credential.now.kind ≢ stored → (result ≡ Ok (WrongKind stored))
        × (B.sight board.new ≡ B.sight board.old) }
    ensures tries { credential.now.kind ≡ stored
        → MayTry (attempt_asked parts.now.user parts.now.id (is_some parts.now.slot) parts.now.slot stored credential.now.text moment)
        (attempt_end parts.now.user parts.now.id (is_some parts.now.slot) parts.now.slot stored credential.now.text moment)
        (B.sight board.old) result (B.sight board.new) }
    ensures of_kind { credential.now.kind ≡ stored → IfOk result IsOfKind }
{
    if credential.kind != stored {
        return Ok(AttemptEnd::WrongKind(stored));
    }
    attempt_text(
        alloc,
        board,
        parts.user,
        parts.id,
        parts.slot.is_some(),
        parts.slot,
        stored,
        credential.text.as_slice(),
        moment,
    )
}
