//! The chain of a credential.
ghost use Rattle.std.specs.Prelude.{◌<◌};
ghost use Rattle.ls_board.specs.Acts.{Sight};
ghost use Rattle.ls_chain.specs.Looking.{Looks};
ghost use Rattle.ls_chain.specs.Links.{links_at};
ghost use Rattle.ls_chain.specs.Credentials.{share_of, credential_chain};

use crate::fault::ChainFault;
use crate::opening::open_blob;
use crate::reading::sound_file;
use ls_board::Board;
use ls_bytes::joined;
use ls_formats::{FilePart, PartName};
use ls_sealing::{discardable_share, value_share};
use ls_secret::Secret;
use std::alloc::Global;

/// What joins the stretched text: the share of the slot's value, or without Weaver that of the
/// discardable bytes.
fn share<B: Board>(
    alloc: Global,
    board: &mut B,
    user: u32,
    id: u64,
    value: &Option<[u8; 16]>,
) -> Result<[u8; 64], ChainFault>
    requires id { 0 < id }
    ensures looks { Looks (λ w. share_of (links_at w user id) value.now)
        (B.sight board.old) result (B.sight board.new) }
{
    if let Some(value) = value {
        return Ok(value_share(value));
    }
    let part = FilePart::Secdis;
    let bytes = sound_file(alloc, board, &PartName { user, id, part })?;
    Ok(discardable_share(bytes.as_slice()))
}

/// The secret to which a stretched text leads that the device accepted: through the slot's value,
/// or without Weaver through the discardable bytes, then through the blob and the key of the id.
pub fn open_credential<B: Board>(
    alloc: Global,
    board: &mut B,
    user: u32,
    id: u64,
    stretched: &[u8; 32],
    value: &Option<[u8; 16]>,
) -> Result<Secret, ChainFault>
    requires id { 0 < id }
    ensures looks { Looks (λ w. credential_chain (links_at w user id) stretched.now value.now)
        (B.sight board.old) result (B.sight board.new) }
{
    let share = share(alloc, board, user, id, value)?;
    let part = FilePart::SpBlob;
    let blob = sound_file(alloc, board, &PartName { user, id, part })?;
    let secret = joined(alloc, stretched, &share)?;
    open_blob(alloc, board, id, secret.as_slice(), blob.as_slice())
}
