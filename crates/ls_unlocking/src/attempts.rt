//! A credential is offered.
ghost use Rattle.std.specs.Prelude.{◌≡◌, IsTrue, Some, IfOk};
ghost use Rattle.std.specs.List.{Contains};
ghost use Rattle.ls_board.specs.Acts.{Sight};
ghost use Rattle.ls_formats.specs.declared.parts.Parts.{Parts as PartsOf};
ghost use Rattle.ls_record.specs.declared.row.UserRow.{UserRow as RowOf};
ghost use Rattle.ls_record.specs.Rows.{IsRecord};
ghost use Rattle.ls_script.specs.declared.command.Command.TheVariants as command;
ghost use Rattle.ls_turn.specs.Refusing.{own_refusal, row_of, Refuses};
ghost use Rattle.ls_turn.specs.Serving.{CanServe, Serves, turned};
ghost use Rattle.ls_vault.specs.Kinds.{same_kind};
ghost use Rattle.ls_unlocking.specs.Fairness.{IsFair};
ghost use Rattle.ls_unlocking.specs.Found.{credential_reply};
ghost use Rattle.ls_unlocking.specs.Trying.{credential_ask, credential_look, EndsLate, Unlocks};

use crate::ending::Ending;
use crate::finishing::finish;
use crate::moment::take_moment;
use crate::parts::parts_of;
use crate::trying::{reveal_tried, try_credential};
use ls_board::Board;
use ls_chain::ChainFault;
use ls_credential::{Credential, Kind};
use ls_drawing::stop_by;
use ls_record::UserRow;
use ls_script::{Refusal, Reply};
use ls_turn::{Session, Stop};

fn is_same_kind(a: Kind, b: Kind) -> bool
    ensures same { result ≡ same_kind a b }
{
    a.code() == b.code()
}

/// Tries a credential of the kind that the user of a row has, at this moment, and looks up what is
/// told of the user where it opens.
fn try_user<B: Board>(
    board: &mut B,
    x: &Session,
    row: &UserRow,
    offered: &Credential,
    moment: u64,
) -> Result<Ending, ChainFault>
    requires can { CanServe (B.sight board.old) x.now }
    requires rules { IsRecord x.now.settings.settled.rec }
    requires row { Contains x.now.settings.settled.rec.users row.now }
    requires kind { offered.now.kind ≡ row.now.kind }
    ensures unlocks { (p : PartsOf) × Contains x.now.named.items p × (p.id ≡ row.now.protector)
        × Unlocks row.now (credential_ask p row.now.kind offered.now.text moment)
        (credential_look p row.now.kind offered.now.text moment)
        (B.sight board.old) result (B.sight board.new) }
    ensures late { IfOk result EndsLate }
{
    let parts = parts_of(&x.named, row.protector);
    let tried = try_credential(x.alloc, board, parts, row.kind, offered, moment);
    reveal_tried(x.alloc, board, row, tried)
}

/// Offers a credential to unlock a user. Where it is of the stored kind, the next moment is taken,
/// and the device of the user's protector is asked, which counts a wrong text. The right text opens
/// the user, and captures it where an arming is prepared.
pub fn attempt<B: Board>(
    board: &mut B,
    x: &mut Session,
    user: u32,
    offered: &Credential,
) -> Result<Reply, Stop>
    requires can { CanServe (B.sight board.old) x.old }
    ensures serves { Serves (B.sight board.old) x.old
        (turned x.old.slots (command.Attempt user offered.now))
        (IsFair (command.Attempt user offered.now)) result x.new (B.sight board.new) }
    ensures refuses { Refuses (own_refusal x.old (command.Attempt user offered.now))
        (B.sight board.old) x.old result x.new (B.sight board.new) }
    // In every world the answer is what the parts of the credential's protector lead to.
    ensures found { IsTrue (B.sight board.old).told → (row : RowOf) (p : PartsOf)
        → row_of x.old.settings.settled.rec user ≡ Some row → offered.now.kind ≡ row.kind
        → Contains x.old.named.items p → p.id ≡ row.protector
        → IfOk result (λ r. r ≡ credential_reply row p offered.now (B.sight board.old).world) }
{
    let Some(row) = x.row(user) else {
        return Ok(Reply::No(Refusal::NoUser));
    };
    if !is_same_kind(offered.kind, row.kind) {
        return Ok(Reply::No(Refusal::WrongKind(row.kind)));
    }
    let moment = match take_moment(x.alloc, board) {
        Ok(moment) => moment,
        Err(fault) => return Err(stop_by(x, fault)),
    };
    let id = row.protector;
    let end = try_user(board, x, row, offered, moment);
    finish(x, user, id, id, end)
}
