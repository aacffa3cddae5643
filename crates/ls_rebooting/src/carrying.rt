//! A change of the vault for which there is room.
ghost use Rattle.std.specs.Prelude.{◌≡◌, ◌≢◌, IsTrue, IfOk, OnOk, Err};
ghost use Rattle.ls_board.specs.Acts.{Sight};
ghost use Rattle.ls_change.specs.Work.{HasRoom, IsQuietWork, next_of};
ghost use Rattle.ls_script.specs.declared.reply.Reply.TheVariants as reply;
ghost use Rattle.ls_settings.specs.Commits.{IsCommit};
ghost use Rattle.ls_vault.specs.Script.{Stage};
ghost use Rattle.ls_turn.specs.declared.stop.Stop.TheVariants as stop;
ghost use Rattle.ls_turn.specs.Serving.{Serves, Turned, CanServe, Always};
ghost use Rattle.ls_turn.specs.Waiting.{CanWait};
ghost use Rattle.ls_turn.specs.Working.{Commits, KeepsNamed, LeavesKept};

use ls_board::Board;
use ls_change::{Work, carry_out};
use ls_script::Reply;
use ls_settings::commits_touch_settings_files_alone;
use ls_turn::{Cause, Session, Stop};

/// Carries out a change that neither names nor retires a protector, for which there is room. It
/// takes no memory.
pub(crate) fn carry<B: Board>(board: &mut B, x: &mut Session, work: Work) -> Result<Reply, Stop>
    requires can { CanServe (B.sight board.old) x.old }
    requires room { HasRoom (B.sight board.old) work }
    requires prepared { IsCommit x.old.settings work.commit.to work.commit.actions }
    requires quiet { IsTrue (B.sight board.old).told
        → IsQuietWork (B.sight board.old).world x.old.settings work }
    requires named { KeepsNamed x.old.slots work x.old.named.items }
    requires waits { CanWait (next_of work).users x.old.pending.items }
    requires left { IsTrue (B.sight board.old).told
        → LeavesKept (B.sight board.old).world work x.old.named.items x.old.retired.items }
    ensures serves { (turn : Stage → Turned)
        → Commits (B.sight board.old) x.old x.old.named.items x.old.retired.items work turn
        → Serves (B.sight board.old) x.old turn Always result x.new (B.sight board.new) }
    ensures becomes { OnOk result (x.new ≡ record x.old { settings = work.commit.to }) }
    ensures fine { IfOk result (λ r. r ≡ reply.Fine) }
    ensures lasting { result ≢ Err stop.Memory }
{
    commits_touch_settings_files_alone();
    let _done = match carry_out(board, &mut x.settings, work) {
        Ok(done) => done,
        Err(part) => {
            x.stopped = Some(Cause::Fault(part));
            return Err(Stop::Fault(part));
        }
    };
    Ok(Reply::Fine)
}
