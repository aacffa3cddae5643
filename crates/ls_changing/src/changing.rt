//! A credential is replaced.
ghost use Rattle.std.specs.Prelude.{◌≡◌, None, IfOk, IsTrue, Err};
ghost use Rattle.ls_board.specs.Acts.{Sight};
ghost use Rattle.ls_script.specs.declared.command.Command.TheVariants as command;
ghost use Rattle.ls_turn.specs.declared.stop.Stop.TheVariants as stop;
ghost use Rattle.ls_turn.specs.Refusing.{own_refusal, Refuses};
ghost use Rattle.ls_turn.specs.Serving.{CanServe, Serves, turned, Always};
ghost use Rattle.ls_drawing.specs.Passing.{Passes, IsStored};
ghost use Rattle.ls_changing.specs.Planning.{IsReadyFor};

use crate::carrying::carried;
use crate::planned::Planned;
use crate::planning::planned;
use crate::refusing::refusal;
use ls_board::{Board, BoardFault};
use ls_credential::Credential;
use ls_drawing::stop_by;
use ls_script::Reply;
use ls_turn::{Session, Stop, find_entry};

/// Plans the change for a user for whom it isn't refused.
fn planned_for<B: Board>(
    board: &mut B,
    x: &Session,
    user: u32,
    new: &Credential,
) -> Result<Planned, BoardFault>
    requires can { CanServe (B.sight board.old) x.now }
    requires goes { own_refusal x.now (command.Change user new.now) ≡ None }
    ensures passes { Passes (B.sight board.old) result (B.sight board.new) }
    ensures plan { IfOk result
        (IsReadyFor (B.sight board.old) (B.sight board.new) x.now user new.now) }
{
    let Some(row) = x.row(user) else {
        unreachable!()
    };
    let Some(opened) = find_entry(&x.opened, user) else {
        unreachable!()
    };
    planned(board, x, row, &opened.secret, new)
}

/// Gives an opened user another credential, or none. The secret stays, and so do its tokens. The user
/// gets a new protector, and a new secure id where the credential is its first; without a credential it
/// has none. The old protector is let go. It draws noise, may ask the Gatekeeper for handles, and
/// commits the user's row.
pub fn change<B: Board>(
    board: &mut B,
    x: &mut Session,
    user: u32,
    new: &Credential,
) -> Result<Reply, Stop>
    requires can { CanServe (B.sight board.old) x.old }
    ensures serves { Serves (B.sight board.old) x.old
        (turned x.old.slots (command.Change user new.now)) Always result x.new (B.sight board.new) }
    ensures refuses { Refuses (own_refusal x.old (command.Change user new.now)) (B.sight board.old) x.old
        result x.new (B.sight board.new) }
    // Want of memory comes before anything that is stored is changed.
    ensures untouched { result ≡ Err stop.Memory → IsTrue (B.sight board.old).told
        → IsStored (B.sight board.old).world (B.sight board.new).world }
{
    match refusal(x, user) {
        Some(why) => return Ok(Reply::No(why)),
        None => {}
    }
    match planned_for(board, x, user, new) {
        Ok(plan) => carried(board, x, user, new, plan),
        Err(fault) => Err(stop_by(x, fault)),
    }
}
