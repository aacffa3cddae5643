//! What is offered to a device: the files that are read before it is asked.
ghost use Rattle.std.specs.Prelude.{◌≡◌, ◌<◌, ◌||◌, ◌^◌, None, Some, IfOk, is_some};
ghost use Rattle.ls_formats.specs.Contents.{Pwd as PwdValue, IsPwd, pwd_of};
ghost use Rattle.ls_formats.specs.declared.part.FilePart.TheVariants.{Pwd as PwdPart};
ghost use Rattle.ls_board.specs.Acts.{Sight};
ghost use Rattle.ls_sealing.specs.PartFormats.{format_fault};
ghost use Rattle.ls_chain.specs.Looking.{Looks, Gives};
ghost use Rattle.ls_chain.specs.Links.{links_at, link_name};
ghost use Rattle.ls_chain.specs.Offers.{offered_by, offered_in, pwd_offer, offer_chain, slot_checked};

use crate::fault::{ChainFault, Spot};
use crate::reading::sound_file;
use ls_board::Board;
use ls_bytes::{Bytes, Memory};
use ls_credential::Kind;
use ls_formats::{FileName, FilePart, PartName, PwdData};
use ls_sealing::{stretched_by, stretched_default};
use std::alloc::Global;

/// What is offered to a device.
#[derive(Clone, Copy, Debug, PartialEq, Eq)]
pub struct Offered {
    pub stretched: [u8; 32],
    /// The handle of the `pwd` file, if there is one.
    pub handle: Option<[u8; 49]>,
}

/// What is offered by what a `pwd` file says. Without Weaver it has a handle.
fn offer(alloc: Global, weaver: bool, pwd: &PwdData, text: &[u8]) -> Result<Offered, ChainFault>
    ensures gives { Gives (offered_by weaver pwd.now text.now) result }
{
    if !weaver && pwd.handle.is_none() {
        return Err(ChainFault::Corrupt(Spot {
            part: FilePart::Pwd,
            at: 20,
        }));
    }
    Ok(Offered {
        stretched: stretched_by(alloc, pwd, text)?,
        handle: pwd.handle,
    })
}

/// What a `pwd` file says.
fn stored(file: &[u8]) -> PwdData
    requires format { format_fault PwdPart file.now ≡ None }
    ensures same { result ≡ pwd_of file.now }
{
    match PwdData::parse(file) {
        Ok(pwd) => pwd,
        Err(_) => unreachable!(),
    }
}

/// What is offered by a file.
fn offered_in(alloc: Global, weaver: bool, file: &[u8], text: &[u8]) -> Result<Offered, ChainFault>
    requires format { format_fault PwdPart file.now ≡ None }
    ensures gives { Gives (offered_in weaver text.now file.now) result }
{
    offer(alloc, weaver, &stored(file), text)
}

/// What is offered for a text of this kind: no credential has no `pwd` file.
fn pwd_offer<B: Board>(
    alloc: Global,
    board: &mut B,
    user: u32,
    id: u64,
    weaver: bool,
    kind: Kind,
    text: &[u8],
) -> Result<Offered, ChainFault>
    requires id { 0 < id }
    ensures looks { Looks (λ w. pwd_offer (links_at w user id) weaver kind text.now)
        (B.sight board.old) result (B.sight board.new) }
{
    if kind == Kind::Empty {
        return Ok(Offered {
            stretched: stretched_default(),
            handle: None,
        });
    }
    let part = FilePart::Pwd;
    let file = sound_file(alloc, board, &PartName { user, id, part })?;
    offered_in(alloc, weaver, file.as_slice(), text)
}

/// With Weaver the file of the slot is there and in its format.
fn slot_checked<B: Board>(
    alloc: Global,
    board: &mut B,
    user: u32,
    id: u64,
    weaver: bool,
    offered: Offered,
) -> Result<Offered, ChainFault>
    requires id { 0 < id }
    ensures looks { Looks (λ w. slot_checked (links_at w user id) weaver offered)
        (B.sight board.old) result (B.sight board.new) }
{
    if !weaver {
        return Ok(offered);
    }
    let part = FilePart::Weaver;
    sound_file(alloc, board, &PartName { user, id, part })?;
    Ok(offered)
}

/// What is offered to the device of a protector for a text of its kind, through the files that are
/// read before it is asked.
pub fn read_offer<B: Board>(
    alloc: Global,
    board: &mut B,
    user: u32,
    id: u64,
    weaver: bool,
    kind: Kind,
    text: &[u8],
) -> Result<Offered, ChainFault>
    requires id { 0 < id }
    ensures looks { Looks (λ w. offer_chain (links_at w user id) weaver kind text.now)
        (B.sight board.old) result (B.sight board.new) }
{
    let offered = pwd_offer(alloc, board, user, id, weaver, kind, text)?;
    slot_checked(alloc, board, user, id, weaver, offered)
}

/// The name of a file at fault; a file of the user has the id 0.
pub fn spot_name(alloc: Global, user: u32, id: u64, part: FilePart) -> Result<Bytes, Memory>
    requires id { 0 < id }
    ensures named { IfOk result (λ name. name ≡ link_name user id part) }
{
    let id = match part {
        FilePart::Handle | FilePart::E0 | FilePart::P1 | FilePart::Resume => 0,
        FilePart::SpBlob
        | FilePart::Pwd
        | FilePart::Secdis
        | FilePart::Weaver
        | FilePart::Metrics => id,
    };
    FileName::Protector(PartName { user, id, part }).print(alloc)
}
