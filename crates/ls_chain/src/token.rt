//! The chain of a token.
ghost use Rattle.std.specs.Prelude.{◌≡◌, ◌<◌, ◌++◌, None, Some, IsTrue, IfOk, bytes_eq, slice_index};
ghost use Rattle.ls_formats.specs.declared.part.FilePart.TheVariants.{SpBlob as BlobPart};
ghost use Rattle.ls_secret.specs.Secrets.{synthetic_password};
ghost use Rattle.ls_board.specs.Acts.{Sight};
ghost use Rattle.ls_board.specs.Keys.{key_at};
ghost use Rattle.ls_sealing.specs.PartFormats.{format_fault};
ghost use Rattle.ls_chain.specs.Calling.{BeginsByReading};
ghost use Rattle.ls_chain.specs.Looking.{Looks, Gives};
ghost use Rattle.ls_chain.specs.Trying.{OnAnswer};
ghost use Rattle.ls_chain.specs.Links.{links_at, next_of};
ghost use Rattle.ls_chain.specs.Credentials.{secret_in};
ghost use Rattle.ls_chain.specs.Tokens.{token_files, slot_file_of, discardable_in, half_by, half_in};
ghost use Rattle.ls_chain.specs.Tokens.{is_half, checked_half, completed_in, text_of_half, token_chain};

use crate::fault::{ChainFault, Spot};
use crate::opening::{open_outer, secret_of, split};
use crate::reading::sound_file;
use ls_blob::opened_under;
use ls_board::Board;
use ls_bytes::{Bytes, hex_upper, joined};
use ls_formats::{FilePart, PartName};
use ls_hash::phash2;
use ls_sealing::discardable_share;
use ls_secret::Secret;
use std::alloc::Global;

/// The files of a token that are read before its slot is asked.
#[derive(Drop)]
pub struct TokenFiles {
    pub blob: Bytes,
    pub secdis: Bytes,
}

/// What the bytes of a token lead to.
#[derive(Drop)]
pub enum TokenEnd {
    Opened(Secret),
    /// The blob doesn't open under them.
    WrongToken,
}

// ---- before the slot is asked

/// With Weaver the file of the slot is there and in its format.
fn slot_file<B: Board>(
    alloc: Global,
    board: &mut B,
    user: u32,
    id: u64,
    weaver: bool,
    files: TokenFiles,
) -> Result<TokenFiles, ChainFault>
    requires id { 0 < id }
    ensures looks { Looks (λ w. slot_file_of (links_at w user id) weaver files)
        (B.sight board.old) result (B.sight board.new) }
    ensures same { IfOk result (λ found. found ≡ files) }
{
    if !weaver {
        return Ok(files);
    }
    let part = FilePart::Weaver;
    sound_file(alloc, board, &PartName { user, id, part })?;
    Ok(files)
}

/// The blob, the discardable bytes, and with Weaver the file of the slot: each is there and in its
/// format.
pub fn read_token<B: Board>(
    alloc: Global,
    board: &mut B,
    user: u32,
    id: u64,
    weaver: bool,
) -> Result<TokenFiles, ChainFault>
    requires id { 0 < id }
    ensures looks { Looks (λ w. token_files (links_at w user id) weaver)
        (B.sight board.old) result (B.sight board.new) }
    ensures format { IfOk result (λ files. format_fault BlobPart files.blob ≡ None) }
    // Its first call met the world.
    ensures met { IsTrue (B.sight board.old).told
        → OnAnswer result (BeginsByReading (B.sight board.old) (B.sight board.new)) }
{
    let part = FilePart::SpBlob;
    let blob = sound_file(alloc, board, &PartName { user, id, part })?;
    let part = FilePart::Secdis;
    let secdis = sound_file(alloc, board, &PartName { user, id, part })?;
    slot_file(alloc, board, user, id, weaver, TokenFiles { blob, secdis })
}

// ---- behind it

/// The discardable bytes: with Weaver the file opens to them under the value of the slot.
fn discardable(alloc: Global, file: &[u8], value: &Option<[u8; 16]>) -> Result<Bytes, ChainFault>
    ensures gives { Gives (discardable_in file.now value.now) result }
{
    let Some(value) = value else {
        return Ok(Bytes::of(alloc, file)?);
    };
    match opened_under(alloc, value, b"weaver-token", file)? {
        Some(bytes) if bytes.as_slice().len() == 16384 => Ok(bytes),
        _ => Err(ChainFault::Corrupt(Spot {
            part: FilePart::Secdis,
            at: 0,
        })),
    }
}

/// What the inner layer opens to, where the outer one opened.
fn inner_half(
    alloc: Global,
    secret: &[u8],
    outer: &Option<Bytes>,
) -> Result<Option<Bytes>, ChainFault>
    ensures gives { Gives (half_by secret.now outer.now) result }
{
    let Some(inner) = outer else {
        return Err(ChainFault::Corrupt(Spot {
            part: FilePart::SpBlob,
            at: 2,
        }));
    };
    Ok(opened_under(alloc, secret, b"application-id", inner.as_slice())?)
}

/// The first half that a blob opens to, if its inner layer opens.
fn half<B: Board>(
    alloc: Global,
    board: &mut B,
    id: u64,
    secret: &[u8],
    blob: &[u8],
) -> Result<Option<Bytes>, ChainFault>
    requires format { format_fault BlobPart blob.now ≡ None }
    ensures looks { Looks (λ w. half_in (key_at w.keys id) secret.now blob.now)
        (B.sight board.old) result (B.sight board.new) }
{
    let (_, content) = split(blob);
    let outer = open_outer(alloc, board, id, content)?;
    inner_half(alloc, secret, &outer)
}

/// Whether a text is there and is this half.
fn is_half(text: &Option<Bytes>, p0: &[u8]) -> bool
    ensures same { result ≡ is_half text.now p0.now }
{
    match text {
        None => false,
        Some(text) => text.as_slice() == p0,
    }
}

/// The secret of this version that two halves make.
fn made(alloc: Global, version: u8, p0: &[u8], p1: &[u8]) -> Result<Secret, ChainFault>
    ensures gives { Gives (secret_in version (Some (synthetic_password p0.now p1.now))) result }
{
    let text = hex_upper(alloc, &phash2(b"sp-split", p0, p1))?;
    secret_of(alloc, version, &Some(text))
}

/// The secret, where a sealed half opens under it to the half of the blob.
fn checked(alloc: Global, e0: &[u8], p0: &[u8], secret: Secret) -> Result<Secret, ChainFault>
    ensures gives { Gives (checked_half e0.now p0.now secret) result }
{
    let text = opened_under(alloc, secret.sp_text(), b"e0-encryption", e0)?;
    if is_half(&text, p0) {
        Ok(secret)
    } else {
        Err(ChainFault::Corrupt(Spot {
            part: FilePart::E0,
            at: 0,
        }))
    }
}

/// The secret of two halves, where the sealed one opens under it to the first.
fn made_checked(
    alloc: Global,
    version: u8,
    p0: &[u8],
    p1: &[u8],
    e0: &[u8],
) -> Result<Secret, ChainFault>
    ensures gives { Gives (next_of (secret_in version (Some (synthetic_password p0.now p1.now)))
        (checked_half e0.now p0.now)) result }
{
    let secret = made(alloc, version, p0, p1)?;
    checked(alloc, e0, p0, secret)
}

/// The secret of the half of a blob and that of the user's `p1` file.
fn completed<B: Board>(
    alloc: Global,
    board: &mut B,
    user: u32,
    version: u8,
    p0: &[u8],
) -> Result<Secret, ChainFault>
    ensures looks { Looks (λ w. completed_in (links_at w user 0) version p0.now)
        (B.sight board.old) result (B.sight board.new) }
{
    let part = FilePart::P1;
    let p1 = sound_file(alloc, board, &PartName { user, id: 0, part })?;
    let part = FilePart::E0;
    let e0 = sound_file(alloc, board, &PartName { user, id: 0, part })?;
    made_checked(alloc, version, p0, p1.as_slice(), e0.as_slice())
}

/// What a half leads to, if there is one.
fn text_of<B: Board>(
    alloc: Global,
    board: &mut B,
    user: u32,
    id: u64,
    version: u8,
    half: &Option<Bytes>,
) -> Result<TokenEnd, ChainFault>
    ensures looks { Looks (λ w. text_of_half (links_at w user id) version half.now)
        (B.sight board.old) result (B.sight board.new) }
{
    let Some(p0) = half else {
        return Ok(TokenEnd::WrongToken);
    };
    Ok(TokenEnd::Opened(completed(alloc, board, user, version, p0.as_slice())?))
}

/// What a half that was opened by this secret of the protector leads to.
fn open_half<B: Board>(
    alloc: Global,
    board: &mut B,
    user: u32,
    id: u64,
    secret: &[u8],
    blob: &[u8],
) -> Result<TokenEnd, ChainFault>
    requires format { format_fault BlobPart blob.now ≡ None }
    ensures looks { Looks (λ w. next_of (half_in (key_at w.keys id) secret.now blob.now)
        (λ half. text_of_half (links_at w user id) (slice_index blob.now 0) half))
        (B.sight board.old) result (B.sight board.new) }
{
    let half = half(alloc, board, id, secret, blob)?;
    let (version, _) = split(blob);
    text_of(alloc, board, user, id, version, &half)
}

/// What the bytes of a token lead to: through the discardable bytes, with Weaver by the value of
/// its slot, then through the blob and the key of its id, and through the user's halves.
pub(crate) fn open_files<B: Board>(
    alloc: Global,
    board: &mut B,
    user: u32,
    id: u64,
    token: &[u8],
    files: &TokenFiles,
    value: &Option<[u8; 16]>,
) -> Result<TokenEnd, ChainFault>
    requires format { format_fault BlobPart files.now.blob ≡ None }
    ensures looks { Looks (λ w. token_chain (links_at w user id) token.now files.now value.now)
        (B.sight board.old) result (B.sight board.new) }
{
    let bytes = discardable(alloc, files.secdis.as_slice(), value)?;
    let secret = joined(alloc, token, &discardable_share(bytes.as_slice()))?;
    open_half(
        alloc,
        board,
        user,
        id,
        secret.as_slice(),
        files.blob.as_slice(),
    )
}
