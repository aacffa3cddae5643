//! A change of the vault, on any board.
ghost use Rattle.std.specs.Prelude.{◌≡◌, IsTrue, IfOk, Err};
ghost use Rattle.ls_board.specs.Acts.{Sight};
ghost use Rattle.ls_change.specs.Work.{IsQuietWork, next_of};
ghost use Rattle.ls_script.specs.declared.reply.Reply.TheVariants as reply;
ghost use Rattle.ls_settings.specs.Commits.{IsCommit};
ghost use Rattle.ls_vault.specs.Script.{Stage};
ghost use Rattle.ls_turn.specs.declared.stop.Stop.TheVariants as stop;
ghost use Rattle.ls_turn.specs.Serving.{Serves, Turned, CanServe, Always};
ghost use Rattle.ls_turn.specs.Waiting.{CanWait};
ghost use Rattle.ls_turn.specs.Working.{Commits, IsSoundWork, KeepsNamed, LeavesKept};

use crate::session::Session;
use crate::stop::{Cause, Stop};
use ls_board::Board;
use ls_change::{Work, carry_out};
use ls_script::Reply;
use ls_settings::commits_touch_settings_files_alone;

/// Makes the room for a change that neither names nor retires a protector, and carries it out.
pub fn perform<B: Board>(board: &mut B, x: &mut Session, work: Work) -> Result<Reply, Stop>
    requires can { CanServe (B.sight board.old) x.old }
    requires sound { IsSoundWork x.old.slots work }
    requires prepared { IsCommit x.old.settings work.commit.to work.commit.actions }
    requires quiet { IsTrue (B.sight board.old).told
        → IsQuietWork (B.sight board.old).world x.old.settings work }
    requires named { KeepsNamed x.old.slots work x.old.named.items }
    requires waits { CanWait (next_of work).users x.old.pending.items }
    requires left { IsTrue (B.sight board.old).told
        → LeavesKept (B.sight board.old).world work x.old.named.items x.old.retired.items }
    ensures serves { (turn : Stage → Turned)
        → Commits (B.sight board.old) x.old x.old.named.items x.old.retired.items work turn
        → Serves (B.sight board.old) x.old turn Always result x.new (B.sight board.new) }
    ensures fine { IfOk result (λ r. r ≡ reply.Fine) }
    // Want of memory comes before any action.
    ensures untouched { result ≡ Err stop.Memory
        → B.sight board.new ≡ record (B.sight board.old) {
          actions = (B.sight board.new).actions;
          bytes = (B.sight board.new).bytes;
        } }
{
    let Some((actions, bytes)) = work.weight() else {
        x.stopped = Some(Cause::Memory);
        return Err(Stop::Memory);
    };
    if board.ready(x.alloc, actions, bytes).is_err() {
        x.stopped = Some(Cause::Memory);
        return Err(Stop::Memory);
    }
    commits_touch_settings_files_alone();
    let _done = match carry_out(board, &mut x.settings, work) {
        Ok(done) => done,
        Err(part) => {
            x.stopped = Some(Cause::Fault(part));
            return Err(Stop::Fault(part));
        }
    };
    Ok(Reply::Fine)
}
