//! The building of a user, and the commit of the record that names it.
ghost use Rattle.std.specs.Prelude.{◌≡◌, ℕ, IsTrue};
ghost use Rattle.ls_board.specs.declared.world.World.{World as Worlds};
ghost use Rattle.ls_board.specs.Acts.{Sight};
ghost use Rattle.ls_board.specs.Reach.{AllTouchOnly};
ghost use Rattle.ls_board.specs.Runs.{AllApply, AllSound};
ghost use Rattle.ls_change.specs.Work.{IsQuietWork};
ghost use Rattle.ls_memboard.specs.Seen.{sight_of};
ghost use Rattle.ls_settings.specs.Commits.{IsCommit};
ghost use Rattle.ls_settings.specs.Loaded.{IsReady};
ghost use Rattle.ls_standing.specs.Quiet.{unnamed};

use crate::building::plans::user_plan;
use crate::building::protectors::{build, sign};
use crate::fault::RowFault;
use ls_board::{Board, Plan};
use ls_change::{Work, carry_out};
use ls_fixtures::open_settings;
use ls_memboard::MemBoard;
use ls_record::Record;
use ls_secret::Personal;
use ls_settings::Settings;
use ls_vault::User;
use std::alloc::Global;

/// Makes the room for a change, and carries it out.
fn change<B: Board>(
    alloc: Global,
    board: &mut B,
    settings: &mut Settings,
    work: Work,
) -> Result<(), RowFault>
    requires prepared { IsCommit settings.old work.commit.to work.commit.actions }
    requires quiet { IsTrue (B.sight board.old).told
        → IsQuietWork (B.sight board.old).world settings.old work }
    requires before { AllSound (B.sight board.old).slots work.before }
    requires after { AllSound (B.sight board.old).slots work.after }
{
    let Some(room) = work.weight() else {
        return Err(RowFault::Form);
    };
    board.ready(alloc, room.0, room.1)?;
    match carry_out(board, settings, work) {
        Ok(_) => Ok(()),
        Err(_) => Err(RowFault::Form),
    }
}

/// Does the actions before the commit, and commits the next record. Nothing is left to take away.
fn commit<B: Board>(
    alloc: Global,
    board: &mut B,
    settings: &mut Settings,
    before: Plan,
    next: Record,
) -> Result<(), RowFault>
    requires ready { IsTrue (B.sight board.old).told
        → IsReady (B.sight board.old).world settings.old }
    requires fits { IsTrue (B.sight board.old).told
        → AllTouchOnly (unnamed (B.sight board.old).world settings.old.settled.rec) before }
    requires sound { (slots : ℕ) → AllSound slots before }
    requires applies { (w : Worlds) → AllApply w before }
{
    let commit = settings.prepare(alloc, next)?;
    let after = Plan::new(alloc);
    let work = Work {
        before,
        commit,
        after,
    };
    change(alloc, board, settings, work)
}

/// Builds what is the user's own, and commits the record that names it.
fn commit_user(
    alloc: Global,
    board: &mut MemBoard,
    settings: &mut Settings,
    user: &User,
    holder: &Record,
    handle: &[u8; 49],
) -> Result<(), RowFault>
    requires ready { IsReady (sight_of board.old).world settings.old }
{
    let world = board.world()?;
    let before = user_plan(alloc, &world, settings.record(), user, handle)?;
    let next = holder.copy(alloc)?;
    commit(alloc, board, settings, before, next)
}

/// Builds a user on a board.
pub fn add_user(
    alloc: Global,
    board: &mut MemBoard,
    user: &User,
    holder: &Record,
) -> Result<(), RowFault> {
    build(alloc, board, user)?;
    let key = user.secret.subkey(Personal::SpGkAuthentication);
    let handle = sign(alloc, board, user.secure, key.as_slice())?;
    let mut settings = open_settings(alloc, board)?;
    commit_user(alloc, board, &mut settings, user, holder, &handle)
}
