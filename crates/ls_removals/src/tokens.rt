//! A token goes.
ghost use Rattle.std.specs.Prelude.{◌≡◌, IsTrue, Err};
ghost use Rattle.ls_board.specs.Acts.{Sight};
ghost use Rattle.ls_script.specs.declared.command.Command.TheVariants as command;
ghost use Rattle.ls_turn.specs.declared.stop.Stop.TheVariants as stop;
ghost use Rattle.ls_turn.specs.Refusing.{own_refusal, Refuses};
ghost use Rattle.ls_turn.specs.Serving.{CanServe, Serves, turned, Always};
ghost use Rattle.ls_drawing.specs.Passing.{IsStored};

use crate::going::{Going, Which};
use crate::letting::let_tokens_go;
use crate::planning::token_plan;
use crate::refusing::{has_token, token_refusal};
use crate::waiting::drop_waiting;
use ls_board::Board;
use ls_script::{Refusal, Reply};
use ls_turn::{Cause, Session, Stop};

/// Drops a token of a user. One that isn't active yet is forgotten, and nothing else is done. For an
/// active one the row without it is committed, and its protector is let go.
pub fn token_drop<B: Board>(
    board: &mut B,
    x: &mut Session,
    user: u32,
    id: u64,
) -> Result<Reply, Stop>
    requires can { CanServe (B.sight board.old) x.old }
    ensures serves { Serves (B.sight board.old) x.old
        (turned x.old.slots (command.TokenDrop user id)) Always result x.new (B.sight board.new) }
    ensures refuses { Refuses (own_refusal x.old (command.TokenDrop user id)) (B.sight board.old)
        x.old result x.new (B.sight board.new) }
    // Want of memory comes before any action.
    ensures untouched { result ≡ Err stop.Memory → IsTrue (B.sight board.old).told
        → IsStored (B.sight board.old).world (B.sight board.new).world }
    ensures same { result ≡ Err stop.Memory
        → B.sight board.new ≡ record (B.sight board.old) {
          actions = (B.sight board.new).actions;
          bytes = (B.sight board.new).bytes;
        } }
{
    let Some(row) = x.row(user) else {
        return Ok(Reply::No(Refusal::NoUser));
    };
    match token_refusal(x, row, id) {
        Some(why) => return Ok(Reply::No(why)),
        None => {}
    }
    let going = Going {
        user,
        which: Which::One(id),
    };
    if !has_token(row, id) {
        drop_waiting(&mut x.pending, &going);
        return Ok(Reply::Fine);
    }
    let planned = match token_plan(x.alloc, &x.settings, row, id) {
        Ok(planned) => planned,
        Err(_) => {
            x.stopped = Some(Cause::Memory);
            return Err(Stop::Memory);
        }
    };
    let_tokens_go(board, x, &going, &going, planned)
}
