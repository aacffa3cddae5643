//! A record that leaves protectors out is committed, and they are let go.
ghost use Rattle.std.specs.Prelude.{◌≡◌, IfOk, Err};
ghost use Rattle.ls_board.specs.Acts.{Sight};
ghost use Rattle.ls_record.specs.Rows.{IsRecord};
ghost use Rattle.ls_script.specs.declared.reply.Reply.TheVariants as reply;
ghost use Rattle.ls_settings.specs.Commits.{IsCommit};
ghost use Rattle.ls_vault.specs.Script.{Stage};
ghost use Rattle.ls_turn.specs.declared.session.Session.{Session as Sessions};
ghost use Rattle.ls_turn.specs.declared.stop.Stop.TheVariants as stop;
ghost use Rattle.ls_turn.specs.Serving.{Serves, Turned, CanServe, Always};
ghost use Rattle.ls_turn.specs.Waiting.{CanWait};
ghost use Rattle.ls_removals.specs.Going.{goes};
ghost use Rattle.ls_removals.specs.Ending.{all_of, HasLost};
ghost use Rattle.ls_removals.specs.Letting.{AllLeaveTo, HasForgotten, IsBehind, LeavesOut, waiting_still};

use crate::changing::letting;
use crate::going::{Going, Which, take_going};
use crate::planning::Planned;
use crate::waiting::drop_waiting;
use ls_board::{Board, Plan};
use ls_committing::commit_change;
use ls_script::Reply;
use ls_settings::{CommitPlan, commits_touch_settings_files_alone};
use ls_turn::{Cause, Session, Stop, take_out};

/// Commits a record that leaves some protectors of a user out, lets them go, and then takes away
/// what is planned.
pub(crate) fn let_go<B: Board>(
    board: &mut B,
    x: &mut Session,
    going: &Going,
    commit: CommitPlan,
    after: Plan,
) -> Result<Reply, Stop>
    // The session before the command.
    ghost before: { Sessions }
    requires can { CanServe (B.sight board.old) before }
    requires behind { IsBehind before x.old }
    requires rules { IsRecord before.settings.settled.rec }
    requires prepared { IsCommit x.old.settings commit.to commit.actions }
    requires leaves { LeavesOut before.settings.settled.rec commit.to.settled.rec
        (goes going.now) after }
    requires waits { CanWait commit.to.settled.rec.users x.old.pending.items }
    ensures serves { (turn : Stage → Turned)
        → AllLeaveTo (B.sight board.old) before x.old commit.to.settled.rec turn
        → Serves (B.sight board.old) before turn Always result x.new (B.sight board.new) }
    ensures fine { IfOk result (λ r. r ≡ reply.Fine) }
    // Want of memory comes before any action.
    ensures untouched { result ≡ Err stop.Memory
        → B.sight board.new ≡ record (B.sight board.old) {
          actions = (B.sight board.new).actions;
          bytes = (B.sight board.new).bytes;
        } }
{
    commits_touch_settings_files_alone();
    let Ok(gone) = take_going(x.alloc, &mut x.named, going) else {
        x.stopped = Some(Cause::Memory);
        return Err(Stop::Memory);
    };
    let Ok(work) = letting(x.alloc, commit, gone, after) else {
        x.stopped = Some(Cause::Memory);
        return Err(Stop::Memory);
    };
    commit_change(board, x, work)
}

/// Forgets some tokens of a user that aren't active yet, commits a record that leaves some protectors
/// out, lets them go, and then takes away what is planned.
pub(crate) fn let_tokens_go<B: Board>(
    board: &mut B,
    x: &mut Session,
    waiting: &Going,
    going: &Going,
    planned: Planned,
) -> Result<Reply, Stop>
    // The session before the command.
    ghost before: { Sessions }
    requires before { x.old ≡ before }
    requires can { CanServe (B.sight board.old) before }
    requires rules { IsRecord before.settings.settled.rec }
    requires prepared { IsCommit before.settings planned.commit.to planned.commit.actions }
    requires leaves { LeavesOut before.settings.settled.rec planned.commit.to.settled.rec
        (goes going.now) planned.after }
    requires waits { CanWait planned.commit.to.settled.rec.users
        (waiting_still waiting.now before.pending.items) }
    ensures serves { (turn : Stage → Turned)
        → ((y : Sessions) → HasForgotten waiting.now before y
        → AllLeaveTo (B.sight board.old) before y planned.commit.to.settled.rec turn)
        → Serves (B.sight board.old) before turn Always result x.new (B.sight board.new) }
    ensures fine { IfOk result (λ r. r ≡ reply.Fine) }
    // Want of memory comes before any action.
    ensures untouched { result ≡ Err stop.Memory
        → B.sight board.new ≡ record (B.sight board.old) {
          actions = (B.sight board.new).actions;
          bytes = (B.sight board.new).bytes;
        } }
{
    drop_waiting(&mut x.pending, waiting);
    let_go(board, x, going, planned.commit, planned.after)
}

/// Forgets what is known of a user, commits a record without it, lets its protectors go, and then takes
/// away what is planned.
pub(crate) fn let_user_go<B: Board>(
    board: &mut B,
    x: &mut Session,
    user: u32,
    planned: Planned,
) -> Result<Reply, Stop>
    // The session before the command.
    ghost before: { Sessions }
    requires before { x.old ≡ before }
    requires can { CanServe (B.sight board.old) before }
    requires rules { IsRecord before.settings.settled.rec }
    requires prepared { IsCommit before.settings planned.commit.to planned.commit.actions }
    requires leaves { LeavesOut before.settings.settled.rec planned.commit.to.settled.rec
        (goes (all_of user)) planned.after }
    requires waits { CanWait planned.commit.to.settled.rec.users
        (waiting_still (all_of user) before.pending.items) }
    ensures serves { (turn : Stage → Turned)
        → ((y : Sessions) → HasLost user before y
        → AllLeaveTo (B.sight board.old) before y planned.commit.to.settled.rec turn)
        → Serves (B.sight board.old) before turn Always result x.new (B.sight board.new) }
    ensures fine { IfOk result (λ r. r ≡ reply.Fine) }
    // Want of memory comes before any action.
    ensures untouched { result ≡ Err stop.Memory
        → B.sight board.new ≡ record (B.sight board.old) {
          actions = (B.sight board.new).actions;
          bytes = (B.sight board.new).bytes;
        } }
{
    let going = Going {
        user,
        which: Which::All,
    };
    take_out(&mut x.opened, user);
    take_out(&mut x.captured, user);
    drop_waiting(&mut x.pending, &going);
    let_go(board, x, &going, planned.commit, planned.after)
}
