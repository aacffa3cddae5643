//! A change of the vault by protectors, on any board.
ghost use Rattle.std.specs.Prelude.{◌≡◌, ◌≤◌, ◌+◌, IsTrue, IfOk, IsOk, OnOk, Err, length, sum_by, vec_len, vec_capacity};
ghost use Rattle.ls_board.specs.Acts.{Sight};
ghost use Rattle.ls_board.specs.Effect.{weight_of};
ghost use Rattle.ls_board.specs.Runs.{after_all};
ghost use Rattle.ls_change.specs.Work.{IsQuietWork, actions_of, next_of};
ghost use Rattle.ls_exchange.specs.Exchanges.{plain, AreNew, AreNamed, AreLeftOut};
ghost use Rattle.ls_script.specs.declared.reply.Reply.TheVariants as reply;
ghost use Rattle.ls_settings.specs.Commits.{IsCommit};
ghost use Rattle.ls_vault.specs.Script.{Stage};
ghost use Rattle.ls_turn.specs.declared.session.Session.{Session as Sessions};
ghost use Rattle.ls_turn.specs.declared.stop.Stop.TheVariants as stop;
ghost use Rattle.ls_turn.specs.Agreeing.{ArePartNames, files_of};
ghost use Rattle.ls_turn.specs.Serving.{Serves, Turned, CanServe, Always};
ghost use Rattle.ls_turn.specs.Waiting.{CanWait};
ghost use Rattle.ls_turn.specs.Working.{IsSoundWork, KeepsNamed, LeavesKept};
ghost use Rattle.ls_committing.specs.Committing.{IsReadied, CommitsChange, HasBecome, named_then, retired_then};

use ls_board::Board;
use ls_bytes::Memory;
use ls_exchange::{Exchange, exchange};
use ls_script::Reply;
use ls_settings::commits_touch_settings_files_alone;
use ls_turn::{Cause, Session, Stop};

/// Makes the room for a change, in the session's lists and on the board. Nothing is done.
fn make_room<B: Board>(board: &mut B, x: &mut Session, work: &Exchange) -> Result<(), Memory>
    ensures same { B.sight board.new ≡ record (B.sight board.old) {
      actions = (B.sight board.new).actions;
      bytes = (B.sight board.new).bytes;
    } }
    ensures actions { OnOk result
        (length (actions_of (plain work.now)) ≤ (B.sight board.new).actions) }
    ensures bytes { OnOk result
        (sum_by weight_of (actions_of (plain work.now)) ≤ (B.sight board.new).bytes) }
    ensures session { x.new ≡ record x.old { named = x.new.named; retired = x.new.retired } }
    ensures named { x.new.named.items ≡ x.old.named.items }
    ensures retired { x.new.retired.items ≡ x.old.retired.items }
    ensures named_room { OnOk result
        (vec_len x.new.named + length work.now.drafts ≤ vec_capacity x.new.named) }
    ensures retired_room { OnOk result
        (vec_len x.new.retired + length work.now.retire ≤ vec_capacity x.new.retired) }
{
    let Ok(_) = work.make_places(&mut x.named, &mut x.retired) else {
        return Err(Memory);
    };
    let Some((actions, bytes)) = work.weight() else {
        return Err(Memory);
    };
    board.ready(x.alloc, actions, bytes)
}

/// Makes the room for a change, in the session's lists and on the board, and carries it out. The
/// protectors that it lets go have been taken out of those that the session names.
pub fn commit_change<B: Board>(
    board: &mut B,
    x: &mut Session,
    work: Exchange,
) -> Result<Reply, Stop>
    // The session before the command.
    ghost before: { Sessions }
    requires can { CanServe (B.sight board.old) before }
    requires readied { IsReadied before x.old }
    requires sound { IsSoundWork x.old.slots (plain work) }
    requires prepared { IsCommit x.old.settings work.commit.to work.commit.actions }
    requires quiet { IsTrue (B.sight board.old).told
        → IsQuietWork (B.sight board.old).world x.old.settings (plain work) }
    requires fresh { IsTrue (B.sight board.old).told
        → AreNew (B.sight board.old).world x.old.settings work }
    requires names { AreNamed work }
    requires left_out { IsTrue (B.sight board.old).told
        → AreLeftOut (B.sight board.old).world work }
    requires files { ArePartNames (files_of (retired_then x.old work)) }
    requires named { KeepsNamed x.old.slots (plain work) (named_then x.old work) }
    requires waits { CanWait (next_of (plain work)).users x.old.pending.items }
    requires left { IsTrue (B.sight board.old).told
        → LeavesKept (B.sight board.old).world (plain work) (named_then x.old work)
        (retired_then x.old work) }
    ensures serves { (turn : Stage → Turned)
        → CommitsChange (B.sight board.old) before x.old work turn
        → Serves (B.sight board.old) before turn Always result x.new (B.sight board.new) }
    ensures fine { IfOk result (λ r. r ≡ reply.Fine) }
    ensures done { IsTrue (B.sight board.old).told → OnOk result ((B.sight board.new).world
        ≡ after_all (B.sight board.old).world (actions_of (plain work))) }
    ensures becomes { OnOk result (HasBecome x.old work.commit.to (named_then x.old work)
        (retired_then x.old work) x.new) }
    // Want of memory comes before any action.
    ensures untouched { result ≡ Err stop.Memory
        → B.sight board.new ≡ record (B.sight board.old) {
          actions = (B.sight board.new).actions;
          bytes = (B.sight board.new).bytes;
        } }
{
    if make_room(board, x, &work).is_err() {
        work.discard();
        x.stopped = Some(Cause::Memory);
        return Err(Stop::Memory);
    }
    commits_touch_settings_files_alone();
    let _done = match exchange(board, &mut x.settings, work, &mut x.named, &mut x.retired) {
        Ok(done) => done,
        Err(part) => {
            x.stopped = Some(Cause::Fault(part));
            return Err(Stop::Fault(part));
        }
    };
    Ok(Reply::Fine)
}
