//! An attempt with a token.
ghost use Rattle.std.specs.Prelude.{◌≡◌, ◌<◌, None, IsTrue, IfSome, is_some};
ghost use Rattle.ls_formats.specs.declared.part.FilePart.TheVariants.{SpBlob as BlobPart};
ghost use Rattle.ls_board.specs.Acts.{Sight};
ghost use Rattle.ls_board.specs.declared.action.Action.TheVariants.{WeaverRead};
ghost use Rattle.ls_sealing.specs.PartFormats.{format_fault};
ghost use Rattle.ls_chain.specs.Calling.{BeginsByReading};
ghost use Rattle.ls_chain.specs.Trying.{Tries, MayTry, OnAnswer};
ghost use Rattle.ls_chain.specs.TokenAttempts.{zero_key, token_slot_end, token_action, token_files_end};
ghost use Rattle.ls_chain.specs.TokenAttempts.{token_asked, token_end};

use crate::asking::ask_slot;
use crate::fault::{ChainFault, Spot};
use crate::token::{TokenEnd, TokenFiles, open_files, read_token};
use ls_board::Board;
use ls_formats::{FilePart, Parts};
use ls_weaver::SlotRead;
use std::alloc::Global;

/// Asks the slot of a token, and by its value goes through the chain. A slot that doesn't give its
/// value puts the `weaver` file at fault, at 1.
fn try_slot<B: Board>(
    alloc: Global,
    board: &mut B,
    user: u32,
    id: u64,
    slot: u32,
    token: &[u8],
    files: &TokenFiles,
) -> Result<TokenEnd, ChainFault>
    requires slot { slot < (B.sight board.old).slots }
    requires format { format_fault BlobPart files.now.blob ≡ None }
    ensures tries { Tries (WeaverRead slot zero_key 0)
        (token_slot_end user id slot token.now files.now)
        (B.sight board.old) result (B.sight board.new) }
{
    if board.ready(alloc, 1, 0).is_err() {
        return Err(ChainFault::Memory);
    }
    let corrupt = ChainFault::Corrupt(Spot {
        part: FilePart::Weaver,
        at: 1,
    });
    let mut out = Vec::new(alloc);
    match ask_slot(board, &mut out, slot, &[0; 16], 0) {
        Ok(SlotRead::Value(value)) => {
            open_files(alloc, board, user, id, token, files, &Some(value))
        }
        Ok(SlotRead::Wrong(_)) => Err(corrupt),
        Ok(SlotRead::Throttled(_)) => Err(corrupt),
        Err(part) => Err(ChainFault::Failed(part)),
    }
}

/// What the files of a token lead to, with Weaver by its slot.
fn try_files<B: Board>(
    alloc: Global,
    board: &mut B,
    user: u32,
    id: u64,
    slot: Option<u32>,
    token: &[u8],
    files: &TokenFiles,
) -> Result<TokenEnd, ChainFault>
    requires slot { IfSome slot (λ slot. slot < (B.sight board.old).slots) }
    requires format { format_fault BlobPart files.now.blob ≡ None }
    ensures tries { MayTry (λ w. token_action slot files.now)
        (token_files_end user id slot token.now files.now)
        (B.sight board.old) result (B.sight board.new) }
{
    match slot {
        Some(slot) => try_slot(alloc, board, user, id, slot, token, files),
        None => open_files(alloc, board, user, id, token, files, &None),
    }
}

/// An attempt with the bytes of a token.
fn try_token<B: Board>(
    alloc: Global,
    board: &mut B,
    user: u32,
    id: u64,
    weaver: bool,
    slot: Option<u32>,
    token: &[u8],
) -> Result<TokenEnd, ChainFault>
    requires id { 0 < id }
    requires slot { IfSome slot (λ slot. slot < (B.sight board.old).slots) }
    ensures tries { MayTry (token_asked user id weaver slot)
        (token_end user id weaver slot token.now)
        (B.sight board.old) result (B.sight board.new) }
    // Its first call met the world.
    ensures met { IsTrue (B.sight board.old).told
        → OnAnswer result (BeginsByReading (B.sight board.old) (B.sight board.new)) }
{
    let files = read_token(alloc, board, user, id, weaver)?;
    try_files(alloc, board, user, id, slot, token, &files)
}

/// An attempt with the bytes of a token on its protector: its files, with Weaver its slot at
/// moment 0, then its blob and the user's halves.
pub fn open_token<B: Board>(
    alloc: Global,
    board: &mut B,
    parts: &Parts,
    token: &[u8],
) -> Result<TokenEnd, ChainFault>
    requires id { 0 < parts.now.id }
    requires slot { IfSome parts.now.slot (λ slot. slot < (B.sight board.old).slots) }
    ensures tries { MayTry (token_asked parts.now.user parts.now.id (is_some parts.now.slot) parts.now.slot)
        (token_end parts.now.user parts.now.id (is_some parts.now.slot) parts.now.slot token.now)
        (B.sight board.old) result (B.sight board.new) }
    // Its first call met the world.
    ensures met { IsTrue (B.sight board.old).told
        → OnAnswer result (BeginsByReading (B.sight board.old) (B.sight board.new)) }
{
    try_token(
        alloc,
        board,
        parts.user,
        parts.id,
        parts.slot.is_some(),
        parts.slot,
        token,
    )
}
