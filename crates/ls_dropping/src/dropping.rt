//! Dropping a user.
ghost use Rattle.std.specs.Prelude.{◌≡◌, ◌⊎◌, ◌++◌, ℕ, List, IsTrue, IfOk, OnOk, OnErr};
ghost use Rattle.ls_board.specs.declared.world.World.{World as Worlds};
ghost use Rattle.ls_board.specs.Runs.{Did, LeavesOnly};
ghost use Rattle.ls_board.specs.Keeping.{Keeps};
ghost use Rattle.ls_board.specs.Rest.{SameRest};
ghost use Rattle.ls_settings.specs.Loaded.{IsReady};
ghost use Rattle.ls_settings.specs.Commits.{IsCommit};
ghost use Rattle.ls_vault.specs.declared.vault.Vault.{Vault as Vaults};
ghost use Rattle.ls_standing.specs.Bare.{IsBare};
ghost use Rattle.ls_standing.specs.Standing.{StandsDurably};
ghost use Rattle.ls_change.specs.Work.{HasRoom, IsDuring, IsCut, actions_of, next_of};
ghost use Rattle.ls_dropping.specs.Dropping.{DroppedUser, DropsUser, without};
ghost use Rattle.ls_dropping.specs.Dropping.{HaveSlots, StaysArmed, files_left};

use ls_board::{Board, Part};
use ls_change::{Work, carry_out};
use ls_settings::{Committed, Settings, commits_touch_settings_files_alone};

/// Drops a user: commits the record without its row, and then erases its protectors and removes its
/// own files. For every vault for which the world stands it stands then for the vault without the
/// user, and a crash at any moment leaves the one or the other.
pub fn drop_user<B: Board>(
    board: &mut B,
    settings: &mut Settings,
    work: Work,
) -> Result<Committed, Part>
    ghost user: { DroppedUser }
    requires room { HasRoom (B.sight board.old) work }
    requires prepared { IsCommit settings.old work.commit.to work.commit.actions }
    requires drops { IsTrue (B.sight board.old).told
        → DropsUser (B.sight board.old).world settings.old work user }
    ensures named { IfOk result (λ done. done ≡ next_of work) }
    ensures becomes { OnOk result (settings.new ≡ work.commit.to) }
    ensures either { OnErr result ((settings.new ≡ settings.old) ⊎ (settings.new ≡ work.commit.to)) }
    ensures did { OnOk result (Did (B.sight board.old) (actions_of work) (B.sight board.new)) }
    ensures keeps { Keeps (λ part. part) (B.sight board.old) (B.sight board.new) result }
    ensures rest { IsTrue (B.sight board.old).told
        → SameRest (B.sight board.old).world (B.sight board.new).world }
    ensures cut { IsTrue (B.sight board.old).told
        → LeavesOnly (B.sight board.old) (B.sight board.new)
        (IsCut (B.sight board.old).world settings.old.settled work) }
    ensures crash { IsTrue (B.sight board.old).told → (v : Vaults)
        → StandsDurably (B.sight board.old).world settings.old.settled v
        → LeavesOnly (B.sight board.old) (B.sight board.new)
        (IsDuring (B.sight board.old).world settings.old.settled work.commit.to.settled v
        (without v user)) }
    ensures done { IsTrue (B.sight board.old).told → (v : Vaults)
        → StandsDurably (B.sight board.old).world settings.old.settled v
        → OnOk result (StandsDurably (B.sight board.new).world work.commit.to.settled
        (without v user)) }
    ensures ready { IsTrue (B.sight board.old).told
        → OnOk result (IsReady (B.sight board.new).world work.commit.to) }
    // Nothing of the user is left but the files of its protectors, where the slots are those that
    // the protectors have. The key of an arming that ends is left to the caller.
    ensures bare { IsTrue (B.sight board.old).told → (start : Worlds) (retired : List (List ℕ))
        → HaveSlots (B.sight board.old).world user.gone
        → StaysArmed settings.old.settled.rec (next_of work)
        → IsBare start (B.sight board.old).world settings.old.settled.rec retired
        → OnOk result (IsBare start (B.sight board.new).world (next_of work)
        (retired ++ files_left user)) }
{
    // For what is left of the user.
    commits_touch_settings_files_alone();
    carry_out(board, settings, work)
}
