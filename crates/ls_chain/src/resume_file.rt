//! The chain of one user's `resume` file.
ghost use Rattle.std.specs.Prelude.{◌≡◌, ◌<◌, None, IfOk, drop};
ghost use Rattle.std.specs.Option.{option_and_then};
ghost use Rattle.ls_gcm.specs.Gcm.{gcm_open};
ghost use Rattle.ls_formats.specs.declared.part.FilePart.TheVariants.{Resume as ResumePart};
ghost use Rattle.ls_board.specs.Acts.{Sight};
ghost use Rattle.ls_board.specs.Keys.{key_at};
ghost use Rattle.ls_sealing.specs.PartFormats.{format_fault};
ghost use Rattle.ls_chain.specs.Looking.{Looks, Gives};
ghost use Rattle.ls_chain.specs.Links.{links_at};
ghost use Rattle.ls_chain.specs.ResumeFiles.{version_file, resume_files, resumed_in, resume_chain};

use crate::fault::{ChainFault, Spot};
use crate::opening::{open_outer, split};
use crate::reading::sound_file;
use ls_board::Board;
use ls_bytes::{Bytes, Memory};
use ls_formats::{FilePart, PartName};
use ls_gcm::opened;
use ls_secret::{Secret, SecretFault};
use std::alloc::Global;

/// What is read of a user before any key is asked.
#[derive(Drop)]
pub struct ResumeFile {
    pub file: Bytes,
    /// The version of the user's secret.
    pub version: u8,
}

/// The version of the user's secret, by the blob of its credential.
fn with_version<B: Board>(
    alloc: Global,
    board: &mut B,
    user: u32,
    id: u64,
    file: Bytes,
) -> Result<ResumeFile, ChainFault>
    requires id { 0 < id }
    ensures looks { Looks (λ w. version_file (links_at w user id) file)
        (B.sight board.old) result (B.sight board.new) }
    ensures same { IfOk result (λ found. found.file ≡ file) }
{
    let part = FilePart::SpBlob;
    let blob = sound_file(alloc, board, &PartName { user, id, part })?;
    let (version, _) = split(blob.as_slice());
    Ok(ResumeFile { file, version })
}

/// The `resume` file of a user, and the blob of its credential: each is there and in its format.
pub fn read_resume<B: Board>(
    alloc: Global,
    board: &mut B,
    user: u32,
    id: u64,
) -> Result<ResumeFile, ChainFault>
    requires id { 0 < id }
    ensures looks { Looks (λ w. resume_files (links_at w user id))
        (B.sight board.old) result (B.sight board.new) }
    ensures format { IfOk result (λ found. format_fault ResumePart found.file ≡ None) }
{
    let part = FilePart::Resume;
    let file = sound_file(alloc, board, &PartName { user, id: 0, part })?;
    with_version(alloc, board, user, id, file)
}

/// What is behind the first byte of a `resume` file.
fn content(file: &[u8]) -> &[u8]
    ensures same { result.now ≡ drop 1 file.now }
{
    match file {
        [_, content @ ..] => content,
        [] => file,
    }
}

/// What the inner layer opens to by the one-time key, where the outer one opened.
fn opened_once(
    alloc: Global,
    once: &[u8; 32],
    outer: &Option<Bytes>,
) -> Result<Option<Bytes>, Memory>
    ensures same { IfOk result (λ text. text ≡ option_and_then (gcm_open once.now) outer.now) }
{
    match outer {
        None => Ok(None),
        Some(inner) => opened(alloc, once, inner.as_slice()),
    }
}

/// The secret of this version with this text.
fn resumed(alloc: Global, version: u8, text: &Option<Bytes>) -> Result<Secret, ChainFault>
    ensures gives { Gives (resumed_in version text.now) result }
{
    let corrupt = ChainFault::Corrupt(Spot {
        part: FilePart::Resume,
        at: 1,
    });
    let Some(text) = text else {
        return Err(corrupt);
    };
    match Secret::of(alloc, version, text.as_slice()) {
        Ok(secret) => Ok(secret),
        Err(SecretFault::Memory) => Err(ChainFault::Memory),
        Err(_) => Err(corrupt),
    }
}

/// The secret of an outer layer that was opened.
fn resumed_under(
    alloc: Global,
    version: u8,
    once: &[u8; 32],
    outer: &Option<Bytes>,
) -> Result<Secret, ChainFault>
    ensures gives { Gives (resumed_in version (option_and_then (gcm_open once.now) outer.now)) result }
{
    let text = opened_once(alloc, once, outer)?;
    resumed(alloc, version, &text)
}

/// The secret that a `resume` file holds, by the key of alias 0 and the key that the cell held.
pub fn open_resume<B: Board>(
    alloc: Global,
    board: &mut B,
    once: &[u8; 32],
    found: &ResumeFile,
) -> Result<Secret, ChainFault>
    ensures looks { Looks (λ w. resume_chain (key_at w.keys 0) once.now found.now)
        (B.sight board.old) result (B.sight board.new) }
{
    let outer = open_outer(alloc, board, 0, content(found.file.as_slice()))?;
    resumed_under(alloc, found.version, once, &outer)
}
