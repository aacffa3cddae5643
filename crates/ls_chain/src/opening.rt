//! The two layers of a blob.
ghost use Rattle.std.specs.Prelude.{◌≡◌, ◌≢◌, ◌⊎◌, drop, slice_index, Ok, Err, None, IfOk, MatchOption};
ghost use Rattle.std.specs.Option.{option_and_then};
ghost use Rattle.ls_blob.specs.Personal.{opened_under};
ghost use Rattle.ls_board.specs.Acts.{Sight};
ghost use Rattle.ls_board.specs.Keys.{key_at};
ghost use Rattle.ls_formats.specs.declared.part.FilePart.TheVariants.{SpBlob as BlobPart};
ghost use Rattle.ls_sealing.specs.Chain.{layer_personal, opened_outer};
ghost use Rattle.ls_sealing.specs.PartFormats.{format_fault};
ghost use Rattle.ls_chain.specs.Looking.{Looks, Gives};
ghost use Rattle.ls_chain.specs.Credentials.{secret_in, opened_secret};

use crate::fault::{ChainFault, Spot};
use ls_blob::opened_under;
use ls_board::{Action, Answer, Board};
use ls_bytes::{Bytes, Memory};
use ls_formats::FilePart;
use ls_secret::{Secret, SecretFault};
use std::alloc::Global;

// ---- the inner layer

/// What the inner layer opens to under the secret of a protector, where the outer one opened.
pub(crate) fn opened_inner(
    alloc: Global,
    secret: &[u8],
    outer: &Option<Bytes>,
) -> Result<Option<Bytes>, Memory>
    ensures same { IfOk result
        (λ text. text ≡ option_and_then (opened_under secret.now layer_personal) outer.now) }
{
    match outer {
        None => Ok(None),
        Some(inner) => opened_under(alloc, secret, b"application-id", inner.as_slice()),
    }
}

/// The secret of this version with this text; the blob is at fault where there is none.
pub(crate) fn secret_of(
    alloc: Global,
    version: u8,
    text: &Option<Bytes>,
) -> Result<Secret, ChainFault>
    ensures gives { Gives (secret_in version text.now) result }
{
    let corrupt = ChainFault::Corrupt(Spot {
        part: FilePart::SpBlob,
        at: 2,
    });
    let Some(text) = text else {
        return Err(corrupt);
    };
    match Secret::of(alloc, version, text.as_slice()) {
        Ok(secret) => Ok(secret),
        Err(SecretFault::Memory) => Err(ChainFault::Memory),
        Err(_) => Err(corrupt),
    }
}

// ---- the outer layer

/// The text that was opened.
fn text_in(answer: Answer, out: Vec<u8>) -> Option<Bytes>
    ensures there { answer ≡ Answer.Bytes → result ≡ Some out.items }
    ensures absent { answer ≢ Answer.Bytes → result ≡ None }
{
    if answer == Answer::Bytes {
        Some(Bytes::from(out))
    } else {
        None
    }
}

/// Opens a text by its action.
fn open_by<B: Board>(
    alloc: Global,
    board: &mut B,
    alias: u64,
    content: &[u8],
    opens: &Action,
) -> Result<Option<Bytes>, ChainFault>
    requires opens { opens.now ≡ Action.KeyOpen alias content.now }
    ensures looks { Looks (λ w. Ok (opened_outer (key_at w.keys alias) content.now))
        (B.sight board.old) result (B.sight board.new) }
{
    board.ready(alloc, 1, 0)?;
    let mut out = Vec::new(alloc);
    let answer = board.act(opens, &mut out)?;
    Ok(text_in(answer, out))
}

/// What a text opens to by the key of an alias in the key store, if there is one.
pub fn open_outer<B: Board>(
    alloc: Global,
    board: &mut B,
    alias: u64,
    content: &[u8],
) -> Result<Option<Bytes>, ChainFault>
    ensures looks { Looks (λ w. Ok (opened_outer (key_at w.keys alias) content.now))
        (B.sight board.old) result (B.sight board.new) }
{
    let opens = Action::KeyOpen {
        alias,
        bytes: Bytes::of(alloc, content)?,
    };
    open_by(alloc, board, alias, content, &opens)
}

// ---- both

/// The version and the content of a blob.
pub(crate) fn split(blob: &[u8]) -> (u8, &[u8])
    requires format { format_fault BlobPart blob.now ≡ None }
    ensures version { result.0 ≡ slice_index blob.now 0 }
    ensures content { result.1.now ≡ drop 2 blob.now }
{
    let [version, _, content @ ..] = blob else {
        unreachable!()
    };
    (*version, content)
}

/// The secret that a blob opens to by the key of the alias and this secret of the protector.
pub(crate) fn open_blob<B: Board>(
    alloc: Global,
    board: &mut B,
    alias: u64,
    secret: &[u8],
    blob: &[u8],
) -> Result<Secret, ChainFault>
    requires format { format_fault BlobPart blob.now ≡ None }
    ensures looks { Looks (λ w. opened_secret (key_at w.keys alias) secret.now blob.now)
        (B.sight board.old) result (B.sight board.new) }
{
    let (version, content) = split(blob);
    let outer = open_outer(alloc, board, alias, content)?;
    let text = opened_inner(alloc, secret, &outer)?;
    secret_of(alloc, version, &text)
}
