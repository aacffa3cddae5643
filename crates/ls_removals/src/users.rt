//! A user goes.
ghost use Rattle.std.specs.Prelude.{◌≡◌, IsTrue, Err};
ghost use Rattle.ls_board.specs.Acts.{Sight};
ghost use Rattle.ls_script.specs.declared.command.Command.TheVariants as command;
ghost use Rattle.ls_turn.specs.declared.stop.Stop.TheVariants as stop;
ghost use Rattle.ls_turn.specs.Refusing.{own_refusal, Refuses};
ghost use Rattle.ls_turn.specs.Serving.{CanServe, Serves, turned, Always};
ghost use Rattle.ls_drawing.specs.Passing.{IsStored};

use crate::ending::user_plan;
use crate::letting::let_user_go;
use crate::refusing::unless_kept;
use ls_board::Board;
use ls_script::{Refusal, Reply};
use ls_turn::{Cause, Session, Stop};

/// Drops a user. The record without its row is committed; then its protectors are let go, the
/// Gatekeeper forgets its secure id, and its own files are removed. Where it was the last armed user,
/// the escrow cell is emptied and the key of the arming is dropped.
pub fn user_drop<B: Board>(board: &mut B, x: &mut Session, user: u32) -> Result<Reply, Stop>
    requires can { CanServe (B.sight board.old) x.old }
    ensures serves { Serves (B.sight board.old) x.old
        (turned x.old.slots (command.Drop user)) Always result x.new (B.sight board.new) }
    ensures refuses { Refuses (own_refusal x.old (command.Drop user)) (B.sight board.old)
        x.old result x.new (B.sight board.new) }
    // Want of memory comes before any action.
    ensures untouched { result ≡ Err stop.Memory → IsTrue (B.sight board.old).told
        → IsStored (B.sight board.old).world (B.sight board.new).world }
    ensures same { result ≡ Err stop.Memory
        → B.sight board.new ≡ record (B.sight board.old) {
          actions = (B.sight board.new).actions;
          bytes = (B.sight board.new).bytes;
        } }
{
    let Some(row) = x.row(user) else {
        return Ok(Reply::No(Refusal::NoUser));
    };
    match unless_kept(x) {
        Some(why) => return Ok(Reply::No(why)),
        None => {}
    }
    let planned = match user_plan(x.alloc, &x.settings, row) {
        Ok(planned) => planned,
        Err(_) => {
            x.stopped = Some(Cause::Memory);
            return Err(Stop::Memory);
        }
    };
    let_user_go(board, x, user, planned)
}
