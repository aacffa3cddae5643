//! Whether the Gatekeeper knows the secret of a user.
ghost use Rattle.std.specs.Prelude.{◌≡◌, None, IfOk};
ghost use Rattle.ls_board.specs.Acts.{Sight};
ghost use Rattle.ls_board.specs.Gatekeeper.{verify_answer};
ghost use Rattle.ls_board.specs.declared.action.Action.TheVariants.{GkVerify};
ghost use Rattle.ls_chain.specs.Looking.{Gives};
ghost use Rattle.ls_chain.specs.Asking.{verify_of};
ghost use Rattle.ls_sealing.specs.PartFormats.{format_fault};
ghost use Rattle.ls_formats.specs.declared.part.FilePart.TheVariants.{Handle as HandlePart};
ghost use Rattle.ls_chain.specs.Trying.{Tries, MayTry};
ghost use Rattle.ls_chain.specs.HandleFile.{handle_password, confirmed_by, confirmed_end};
ghost use Rattle.ls_chain.specs.HandleFile.{check_asked, check_end};

use crate::asking::{HandleAnswer, ask_handle};
use crate::fault::{ChainFault, Spot};
use crate::reading::sound_file;
use ls_board::Board;
use ls_bytes::{Bytes, Memory};
use ls_formats::{FilePart, HandleFile, PartName};
use ls_secret::{Personal, Secret};
use std::alloc::Global;

/// The password of a secret.
fn handle_password(alloc: Global, secret: &Secret) -> Result<Bytes, Memory>
    ensures same { IfOk result (λ bytes. bytes ≡ handle_password secret.now) }
{
    Bytes::of(
        alloc,
        secret.subkey(Personal::SpGkAuthentication).as_slice(),
    )
}

/// The handle is that of the password, with this id.
fn confirmed(secure: u64, checked: HandleAnswer) -> Result<u64, ChainFault>
    ensures gives { Gives (confirmed_by secure (verify_of checked)) result }
{
    match checked {
        HandleAnswer::Accepted(sid) if sid == secure => Ok(sid),
        _ => Err(ChainFault::Corrupt(Spot {
            part: FilePart::Handle,
            at: 0,
        })),
    }
}

/// Asks the Gatekeeper, at moment 0, whether a handle is that of the password, with this id.
fn confirm<B: Board>(
    alloc: Global,
    board: &mut B,
    secure: u64,
    handle: &[u8; 49],
    password: Bytes,
) -> Result<u64, ChainFault>
    ensures tries { Tries (GkVerify handle.now password 0)
        (λ w. confirmed_by secure (verify_answer w.gk_key w.gk handle.now password 0))
        (B.sight board.old) result (B.sight board.new) }
{
    if board
        .ready(alloc, 1, password.as_slice().len() as u64)
        .is_err()
    {
        return Err(ChainFault::Memory);
    }
    let mut out = Vec::new(alloc);
    match ask_handle(board, &mut out, handle, password, 0) {
        Ok(checked) => confirmed(secure, checked),
        Err(part) => Err(ChainFault::Failed(part)),
    }
}

/// Asks the Gatekeeper whether a handle is that of the secret, with this id.
fn confirm_secret<B: Board>(
    alloc: Global,
    board: &mut B,
    secure: u64,
    handle: &[u8; 49],
    secret: &Secret,
) -> Result<u64, ChainFault>
    ensures tries { Tries (GkVerify handle.now (handle_password secret.now) 0)
        (confirmed_end secure secret.now handle.now)
        (B.sight board.old) result (B.sight board.new) }
{
    let password = handle_password(alloc, secret)?;
    confirm(alloc, board, secure, handle, password)
}

/// The handle that a file is.
fn handle_in(file: &[u8]) -> [u8; 49]
    requires format { format_fault HandlePart file.now ≡ None }
    ensures same { result ≡ file.now }
{
    match HandleFile::parse(file) {
        Ok(found) => found.handle,
        Err(_) => unreachable!(),
    }
}

/// Whether the Gatekeeper accepts the handle of the user's `handle` file for the secret, and with
/// this secure id; else the file is at fault, at 0.
pub fn check_handle<B: Board>(
    alloc: Global,
    board: &mut B,
    user: u32,
    secure: u64,
    secret: &Secret,
) -> Result<u64, ChainFault>
    ensures tries { MayTry (check_asked user secret.now) (check_end user secure secret.now)
        (B.sight board.old) result (B.sight board.new) }
{
    let part = FilePart::Handle;
    let file = sound_file(alloc, board, &PartName { user, id: 0, part })?;
    let handle = handle_in(file.as_slice());
    confirm_secret(alloc, board, secure, &handle, secret)
}
