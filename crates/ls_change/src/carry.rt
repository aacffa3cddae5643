//! Carrying out a change of the vault.
ghost use Rattle.std.specs.Prelude.{◌≡◌, ◌⊎◌, take, slice_get, IsTrue, IsSomeAnd, IfOk, IfErr, OnOk, OnErr};
ghost use Rattle.ls_board.specs.Acts.{Sight};
ghost use Rattle.ls_board.specs.Runs.{CanRun, Did, FailedAfter, FailedIn, PlanImage, LeavesOnly};
ghost use Rattle.ls_board.specs.Keeping.{Keeps};
ghost use Rattle.ls_board.specs.Rest.{SameRest};
ghost use Rattle.ls_settings.specs.Loaded.{IsReady};
ghost use Rattle.ls_settings.specs.Commits.{IsCommit};
ghost use Rattle.ls_vault.specs.declared.vault.Vault.{Vault as Vaults};
ghost use Rattle.ls_standing.specs.Standing.{StandsDurably};
ghost use Rattle.ls_change.specs.Work.{HasRoom, IsQuietWork, Readies, IsCut, IsDuring};
ghost use Rattle.ls_change.specs.Work.{actions_of, next_of};

use crate::work::Work;
use ls_board::{Board, Part, PlanFault, run_plan};
use ls_settings::{Committed, Settings};

/// Does the actions before the commit.
fn stage<B: Board>(board: &mut B, work: &Work) -> Result<(), PlanFault>
    requires { CanRun (B.sight board.old) work.now.before }
    ensures done { OnOk result (Did (B.sight board.old) work.now.before (B.sight board.new)) }
    ensures failed { IfErr result (λ f. IsSomeAnd (slice_get work.now.before f.at) (λ a.
        FailedAfter (B.sight board.old) (take f.at work.now.before) a f.part
        (B.sight board.new))) }
    ensures crash { IsTrue (B.sight board.old).told
        → LeavesOnly (B.sight board.old) (B.sight board.new)
        (PlanImage (B.sight board.old).world work.now.before) }
{
    run_plan(board, &work.before)
}

/// Does the actions before the commit, the commit, and the actions behind it. It takes no memory.
/// After a fault the world stands for the old vault or the new one, and these settings serve no
/// more.
pub fn carry_out<B: Board>(
    board: &mut B,
    settings: &mut Settings,
    work: Work,
) -> Result<Committed, Part>
    requires room { HasRoom (B.sight board.old) work }
    // The commit was prepared from these settings.
    requires prepared { IsCommit settings.old work.commit.to work.commit.actions }
    requires quiet { IsTrue (B.sight board.old).told
        → IsQuietWork (B.sight board.old).world settings.old work }
    ensures named { IfOk result (λ done. done ≡ next_of work) }
    ensures becomes { OnOk result (settings.new ≡ work.commit.to) }
    ensures either { OnErr result ((settings.new ≡ settings.old) ⊎ (settings.new ≡ work.commit.to)) }
    ensures did { OnOk result (Did (B.sight board.old) (actions_of work) (B.sight board.new)) }
    // After a fault all before one of its actions was done, and this one failed.
    ensures failed { IfErr result (λ part.
        FailedIn (B.sight board.old) (actions_of work) part (B.sight board.new)) }
    // A fault comes only where a count rose.
    ensures keeps { Keeps (λ part. part) (B.sight board.old) (B.sight board.new) result }
    // Whatever it answers, nothing was said, heard or drawn, no moment was taken, and there are as
    // many slots.
    ensures rest { IsTrue (B.sight board.old).told
        → SameRest (B.sight board.old).world (B.sight board.new).world }
    // Whatever the worlds stand for, a crash leaves the old settings or the next ones, and no more
    // was done than these actions do.
    ensures cut { IsTrue (B.sight board.old).told
        → LeavesOnly (B.sight board.old) (B.sight board.new)
        (IsCut (B.sight board.old).world settings.old.settled work) }
    // A crash at any moment, or within any call, leaves the old vault or the new one, for every
    // vault for which the world stands.
    ensures crash { IsTrue (B.sight board.old).told → (old new : Vaults)
        → StandsDurably (B.sight board.old).world settings.old.settled old
        → Readies (B.sight board.old).world work new
        → LeavesOnly (B.sight board.old) (B.sight board.new)
        (IsDuring (B.sight board.old).world settings.old.settled work.commit.to.settled old new) }
    // After it the world stands for the new vault, and so does each image.
    ensures done { IsTrue (B.sight board.old).told → (new : Vaults)
        → Readies (B.sight board.old).world work new
        → OnOk result (StandsDurably (B.sight board.new).world work.commit.to.settled new) }
    ensures ready { IsTrue (B.sight board.old).told
        → OnOk result (IsReady (B.sight board.new).world work.commit.to) }
{
    if let Err(fault) = stage(board, &work) {
        return Err(fault.part);
    }
    let done = settings.commit(board, work.commit)?;
    match run_plan(board, &work.after) {
        Ok(()) => Ok(done),
        Err(fault) => Err(fault.part),
    }
}
