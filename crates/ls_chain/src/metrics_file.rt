//! What a secret leads to: the metrics of its text.
ghost use Rattle.std.specs.Prelude.{◌≡◌, ◌<◌, IfOk};
ghost use Rattle.ls_board.specs.Acts.{Sight};
ghost use Rattle.ls_chain.specs.Looking.{Looks, Gives};
ghost use Rattle.ls_chain.specs.Links.{links_at};
ghost use Rattle.ls_chain.specs.MetricsFile.{metrics_text, counts_in, metrics_chain};

use crate::fault::{ChainFault, Spot};
use crate::reading::sound_file;
use ls_blob::opened_under;
use ls_board::Board;
use ls_bytes::{Bytes, Memory};
use ls_formats::{FilePart, MetricsFile, PartName};
use ls_secret::{Personal, Secret};
use std::alloc::Global;

/// What a file opens to under the secret.
fn shown(alloc: Global, secret: &Secret, file: &[u8]) -> Result<Option<Bytes>, Memory>
    ensures same { IfOk result (λ text. text ≡ metrics_text secret.now file.now) }
{
    opened_under(
        alloc,
        secret.subkey(Personal::PasswordMetrics).as_slice(),
        b"",
        file,
    )
}

/// The ten bytes, where they have their format.
fn counts(text: Option<Bytes>) -> Result<Bytes, ChainFault>
    ensures gives { Gives (counts_in text) result }
{
    let corrupt = ChainFault::Corrupt(Spot {
        part: FilePart::Metrics,
        at: 0,
    });
    let Some(text) = text else {
        return Err(corrupt);
    };
    match MetricsFile::parse(text.as_slice()) {
        Ok(_) => Ok(text),
        Err(_) => Err(corrupt),
    }
}

/// The ten bytes of a file that opens under the secret.
fn counted(alloc: Global, secret: &Secret, file: &[u8]) -> Result<Bytes, ChainFault>
    ensures gives { Gives (counts_in (metrics_text secret.now file.now)) result }
{
    let text = shown(alloc, secret, file)?;
    counts(text)
}

/// The ten bytes of a protector's metrics: its file opens to them under the secret.
pub fn read_metrics<B: Board>(
    alloc: Global,
    board: &mut B,
    user: u32,
    id: u64,
    secret: &Secret,
) -> Result<Bytes, ChainFault>
    requires id { 0 < id }
    ensures looks { Looks (λ w. metrics_chain (links_at w user id) secret.now)
        (B.sight board.old) result (B.sight board.new) }
{
    let part = FilePart::Metrics;
    let file = sound_file(alloc, board, &PartName { user, id, part })?;
    counted(alloc, secret, file.as_slice())
}
