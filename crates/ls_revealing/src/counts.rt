//! What is counted of a user's credential.
ghost use Rattle.std.specs.Prelude.{◌<◌};
ghost use Rattle.ls_board.specs.Acts.{Sight};
ghost use Rattle.ls_chain.specs.Looking.{Looks, Gives};
ghost use Rattle.ls_revealing.specs.Revealing.{counts_of, counts_end};

use ls_board::Board;
use ls_chain::{ChainFault, Spot, read_metrics};
use ls_credential::{Kind, Metrics};
use ls_formats::{FilePart, MetricsFile};
use ls_record::UserRow;
use ls_secret::Secret;
use std::alloc::Global;

/// The counts that ten bytes are.
fn counts_of(text: &[u8]) -> Result<Metrics, ChainFault>
    ensures gives { Gives (counts_of text.now) result }
{
    match MetricsFile::parse(text) {
        Ok(file) => Ok(file.metrics),
        Err(_) => Err(ChainFault::Corrupt(Spot {
            part: FilePart::Metrics,
            at: 0,
        })),
    }
}

/// The counts of the user's credential, if there is one.
pub(crate) fn read_counts<B: Board>(
    alloc: Global,
    board: &mut B,
    row: &UserRow,
    secret: &Secret,
) -> Result<Option<Metrics>, ChainFault>
    requires id { 0 < row.now.protector }
    ensures looks { Looks (counts_end row.now secret.now)
        (B.sight board.old) result (B.sight board.new) }
{
    if row.kind == Kind::Empty {
        return Ok(None);
    }
    let text = read_metrics(alloc, board, row.user, row.protector, secret)?;
    Ok(Some(counts_of(text.as_slice())?))
}
