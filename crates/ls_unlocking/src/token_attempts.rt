//! The bytes of a token are offered.
ghost use Rattle.std.specs.Prelude.{◌≡◌, true, IsTrue, Some, IfOk};
ghost use Rattle.std.specs.List.{Contains};
ghost use Rattle.ls_board.specs.Acts.{Sight};
ghost use Rattle.ls_chain.specs.Calling.{BeginsByReading};
ghost use Rattle.ls_chain.specs.Trying.{OnAnswer};
ghost use Rattle.ls_formats.specs.declared.parts.Parts.{Parts as PartsOf};
ghost use Rattle.ls_record.specs.declared.row.UserRow.{UserRow as RowOf};
ghost use Rattle.ls_record.specs.Rows.{IsRecord, has};
ghost use Rattle.ls_script.specs.declared.command.Command.TheVariants as command;
ghost use Rattle.ls_turn.specs.Refusing.{own_refusal, row_of, Refuses};
ghost use Rattle.ls_turn.specs.Serving.{CanServe, Serves, turned};
ghost use Rattle.ls_unlocking.specs.Fairness.{IsFair};
ghost use Rattle.ls_unlocking.specs.Found.{token_reply};
ghost use Rattle.ls_unlocking.specs.Trying.{token_ask, token_look, EndsLate, Unlocks};

use crate::ending::Ending;
use crate::finishing::finish;
use crate::parts::parts_of;
use crate::trying::{reveal_tried, try_token};
use ls_board::Board;
use ls_bytes::Bytes;
use ls_chain::ChainFault;
use ls_record::UserRow;
use ls_script::{Refusal, Reply};
use ls_turn::{Session, Stop};

/// Whether the id is one of these.
fn has(ids: &[u64], id: u64) -> bool
    ensures same { result ≡ has ids.now id }
{
    ids.iter().any(|i| *i == id)
}

/// Tries the bytes of a token that the user of a row has, and looks up what is told of the user
/// where it opens.
fn try_bytes<B: Board>(
    board: &mut B,
    x: &Session,
    row: &UserRow,
    id: u64,
    offered: &Bytes,
) -> Result<Ending, ChainFault>
    requires can { CanServe (B.sight board.old) x.now }
    requires rules { IsRecord x.now.settings.settled.rec }
    requires row { Contains x.now.settings.settled.rec.users row.now }
    requires token { has row.now.tokens id ≡ true }
    ensures unlocks { (p : PartsOf) × Contains x.now.named.items p × (p.id ≡ id)
        × (u : Unlocks row.now (token_ask p) (token_look p offered.now)
        (B.sight board.old) result (B.sight board.new))
        × (IsTrue (B.sight board.old).told
        → OnAnswer u.tried (BeginsByReading (B.sight board.old) u.mid)) }
    ensures late { IfOk result EndsLate }
{
    let parts = parts_of(&x.named, id);
    let tried = try_token(x.alloc, board, parts, offered.as_slice());
    reveal_tried(x.alloc, board, row, tried)
}

/// Offers the bytes of a token to unlock a user. No moment is taken, and nothing is counted. The
/// bytes of an active token open the user, and capture it where an arming is prepared.
pub fn token_attempt<B: Board>(
    board: &mut B,
    x: &mut Session,
    user: u32,
    id: u64,
    offered: &Bytes,
) -> Result<Reply, Stop>
    requires can { CanServe (B.sight board.old) x.old }
    ensures serves { Serves (B.sight board.old) x.old
        (turned x.old.slots (command.TokenAttempt user id offered.now))
        (IsFair (command.TokenAttempt user id offered.now)) result x.new (B.sight board.new) }
    ensures refuses { Refuses (own_refusal x.old (command.TokenAttempt user id offered.now))
        (B.sight board.old) x.old result x.new (B.sight board.new) }
    // In every world the answer is what the parts of the token's protector lead to.
    ensures found { IsTrue (B.sight board.old).told → (row : RowOf) (p : PartsOf)
        → row_of x.old.settings.settled.rec user ≡ Some row → has row.tokens id ≡ true
        → Contains x.old.named.items p → p.id ≡ id
        → IfOk result (λ r. r ≡ token_reply row p offered.now (B.sight board.old).world) }
{
    let Some(row) = x.row(user) else {
        return Ok(Reply::No(Refusal::NoUser));
    };
    if !has(row.tokens.as_slice(), id) {
        return Ok(Reply::No(Refusal::NoToken));
    }
    let credential = row.protector;
    let end = try_bytes(board, x, row, id, offered);
    finish(x, user, credential, id, end)
}
