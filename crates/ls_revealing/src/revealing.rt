//! What is told of a user whose secret was opened.
ghost use Rattle.std.specs.Prelude.{◌≡◌, ◌<◌};
ghost use Rattle.ls_board.specs.Acts.{Sight};
ghost use Rattle.ls_chain.specs.Looking.{Looks};
ghost use Rattle.ls_chain.specs.Trying.{MayTry};
ghost use Rattle.ls_revealing.specs.Revealing.{secure_asked, told_of, counts_told, reveal_end};

use crate::counts::read_counts;
use crate::secure::check_secure;
use ls_board::Board;
use ls_chain::ChainFault;
use ls_credential::Metrics;
use ls_record::UserRow;
use ls_script::Revealed;
use ls_secret::Secret;
use std::alloc::Global;

/// What is told of a user with this secret and these counts.
fn told_of(row: &UserRow, secret: &Secret, metrics: Option<Metrics>) -> Revealed
    ensures same { result ≡ told_of row.now secret.now metrics }
{
    Revealed {
        user: row.user,
        derived: secret.derived(),
        secure: row.secure,
        metrics,
    }
}

/// The same, with the counts of the user's credential.
fn counts_told<B: Board>(
    alloc: Global,
    board: &mut B,
    row: &UserRow,
    secret: &Secret,
) -> Result<Revealed, ChainFault>
    requires id { 0 < row.now.protector }
    ensures looks { Looks (counts_told row.now secret.now)
        (B.sight board.old) result (B.sight board.new) }
{
    let counts = read_counts(alloc, board, row, secret)?;
    Ok(told_of(row, secret, counts))
}

/// What is told of a user with this secret: the Gatekeeper is asked for the `handle` file where the
/// user has a secure id, and then the `metrics` file is read where it has a credential.
pub fn reveal<B: Board>(
    alloc: Global,
    board: &mut B,
    row: &UserRow,
    secret: &Secret,
) -> Result<Revealed, ChainFault>
    requires id { 0 < row.now.protector }
    ensures tries { MayTry (secure_asked row.now secret.now) (reveal_end row.now secret.now)
        (B.sight board.old) result (B.sight board.new) }
{
    check_secure(alloc, board, row, secret)?;
    counts_told(alloc, board, row, secret)
}
