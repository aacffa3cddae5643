//! A user is added.
ghost use Rattle.std.specs.Prelude.{◌≡◌, IsTrue, Err};
ghost use Rattle.ls_board.specs.Acts.{Sight};
ghost use Rattle.ls_drawing.specs.Passing.{IsStored};
ghost use Rattle.ls_script.specs.declared.command.Command.TheVariants as command;
ghost use Rattle.ls_turn.specs.declared.stop.Stop.TheVariants as stop;
ghost use Rattle.ls_turn.specs.Refusing.{own_refusal, Refuses};
ghost use Rattle.ls_turn.specs.Serving.{CanServe, Serves, turned, Always};

use crate::carrying::carried;
use crate::planning::planned;
use crate::refusing::refusal;
use ls_board::Board;
use ls_drawing::stop_by;
use ls_script::Reply;
use ls_turn::{Session, Stop};

/// Adds a user, closed and without a credential: with a new secret, a protector that seals it, and,
/// where it may have tokens, the halves of which the secret is made. It draws noise, and commits the
/// user's row.
pub fn user_add<B: Board>(
    board: &mut B,
    x: &mut Session,
    user: u32,
    escrow: bool,
) -> Result<Reply, Stop>
    requires can { CanServe (B.sight board.old) x.old }
    ensures serves { Serves (B.sight board.old) x.old (turned x.old.slots (command.Add user escrow))
        Always result x.new (B.sight board.new) }
    ensures refuses { Refuses (own_refusal x.old (command.Add user escrow)) (B.sight board.old) x.old
        result x.new (B.sight board.new) }
    // Want of memory comes before anything that is stored is changed.
    ensures untouched { result ≡ Err stop.Memory → IsTrue (B.sight board.old).told
        → IsStored (B.sight board.old).world (B.sight board.new).world }
{
    match refusal(x, user) {
        Some(why) => return Ok(Reply::No(why)),
        None => {}
    }
    match planned(board, x, user, escrow) {
        Ok(plan) => carried(board, x, user, escrow, plan),
        Err(fault) => Err(stop_by(x, fault)),
    }
}
