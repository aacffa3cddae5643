//! Whether the Gatekeeper knows the secret of a user.
ghost use Rattle.ls_board.specs.Acts.{Sight};
ghost use Rattle.ls_chain.specs.Trying.{MayTry};
ghost use Rattle.ls_revealing.specs.Revealing.{secure_asked, secure_end};

use ls_board::Board;
use ls_chain::{ChainFault, check_handle};
use ls_record::UserRow;
use ls_secret::Secret;
use std::alloc::Global;

/// The user's secure id, where the Gatekeeper accepts the `handle` file for the secret; and 0 where
/// the user has none.
pub(crate) fn check_secure<B: Board>(
    alloc: Global,
    board: &mut B,
    row: &UserRow,
    secret: &Secret,
) -> Result<u64, ChainFault>
    ensures tries { MayTry (secure_asked row.now secret.now) (secure_end row.now secret.now)
        (B.sight board.old) result (B.sight board.new) }
{
    if row.secure == 0 {
        return Ok(row.secure);
    }
    check_handle(alloc, board, row.user, row.secure, secret)
}
