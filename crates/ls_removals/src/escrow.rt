//! The tokens of a user end.
ghost use Rattle.std.specs.Prelude.{◌≡◌, IsTrue, Err};
ghost use Rattle.ls_board.specs.Acts.{Sight};
ghost use Rattle.ls_script.specs.declared.command.Command.TheVariants as command;
ghost use Rattle.ls_turn.specs.declared.stop.Stop.TheVariants as stop;
ghost use Rattle.ls_turn.specs.Refusing.{own_refusal, Refuses};
ghost use Rattle.ls_turn.specs.Serving.{CanServe, Serves, turned, Always};
ghost use Rattle.ls_drawing.specs.Passing.{IsStored};

use crate::going::{Going, Which};
use crate::letting::let_tokens_go;
use crate::planning::escrow_plan;
use crate::refusing::escrow_refusal;
use ls_board::Board;
use ls_script::{Refusal, Reply};
use ls_turn::{Cause, Session, Stop};

/// Ends the tokens of a user, who can have none from then on. Those that aren't active yet are
/// forgotten, the row without tokens is committed, the protectors of the active ones are let go, and
/// the two files that complete a token's secret are removed.
pub fn escrow_off<B: Board>(board: &mut B, x: &mut Session, user: u32) -> Result<Reply, Stop>
    requires can { CanServe (B.sight board.old) x.old }
    ensures serves { Serves (B.sight board.old) x.old
        (turned x.old.slots (command.EscrowOff user)) Always result x.new (B.sight board.new) }
    ensures refuses { Refuses (own_refusal x.old (command.EscrowOff user)) (B.sight board.old)
        x.old result x.new (B.sight board.new) }
    // Want of memory comes before any action.
    ensures untouched { result ≡ Err stop.Memory → IsTrue (B.sight board.old).told
        → IsStored (B.sight board.old).world (B.sight board.new).world }
    ensures same { result ≡ Err stop.Memory
        → B.sight board.new ≡ record (B.sight board.old) {
          actions = (B.sight board.new).actions;
          bytes = (B.sight board.new).bytes;
        } }
{
    let Some(row) = x.row(user) else {
        return Ok(Reply::No(Refusal::NoUser));
    };
    match escrow_refusal(x, row) {
        Some(why) => return Ok(Reply::No(why)),
        None => {}
    }
    let waiting = Going {
        user,
        which: Which::All,
    };
    let tokens = Going {
        user,
        which: Which::AllBut(row.protector),
    };
    let planned = match escrow_plan(x.alloc, &x.settings, row) {
        Ok(planned) => planned,
        Err(_) => {
            x.stopped = Some(Cause::Memory);
            return Err(Stop::Memory);
        }
    };
    let_tokens_go(board, x, &waiting, &tokens, planned)
}
