//! An arming is prepared.
ghost use Rattle.std.specs.Prelude.{◌≡◌, IsTrue, Err};
ghost use Rattle.ls_board.specs.Acts.{Sight};
ghost use Rattle.ls_drawing.specs.Passing.{IsStored};
ghost use Rattle.ls_script.specs.declared.command.Command.TheVariants as command;
ghost use Rattle.ls_turn.specs.declared.stop.Stop.TheVariants as stop;
ghost use Rattle.ls_turn.specs.Refusing.{own_refusal, Refuses};
ghost use Rattle.ls_turn.specs.Serving.{Always, CanServe, Serves, turned};

use crate::ending::end_arming;
use ls_board::Board;
use ls_script::Reply;
use ls_turn::{Session, Stop};

/// Ends the arming of an earlier session, and has each user captured who is unlocked from now on.
pub fn prepare<B: Board>(board: &mut B, x: &mut Session) -> Result<Reply, Stop>
    requires can { CanServe (B.sight board.old) x.old }
    ensures serves { Serves (B.sight board.old) x.old (turned x.old.slots command.Prepare) Always
        result x.new (B.sight board.new) }
    ensures refuses { Refuses (own_refusal x.old command.Prepare) (B.sight board.old) x.old result
        x.new (B.sight board.new) }
    // Want of memory comes before any action.
    ensures untouched { result ≡ Err stop.Memory → IsTrue (B.sight board.old).told
        → IsStored (B.sight board.old).world (B.sight board.new).world }
    ensures unmoved { result ≡ Err stop.Memory
        → B.sight board.new ≡ record (B.sight board.old) {
          actions = (B.sight board.new).actions;
          bytes = (B.sight board.new).bytes;
        } }
{
    if let Err(stop) = end_arming(board, x) {
        return Err(stop);
    }
    x.prepared = true;
    x.captured = Vec::new(x.alloc);
    Ok(Reply::Fine)
}
