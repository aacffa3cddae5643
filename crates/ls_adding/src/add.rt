//! Adding a user.
ghost use Rattle.std.specs.Prelude.{◌≡◌, ◌⊎◌, IsTrue, IfOk, OnOk, OnErr};
ghost use Rattle.ls_board.specs.Runs.{Did, LeavesOnly};
ghost use Rattle.ls_board.specs.Keeping.{Keeps};
ghost use Rattle.ls_board.specs.Rest.{SameRest};
ghost use Rattle.ls_settings.specs.Loaded.{IsReady};
ghost use Rattle.ls_settings.specs.Commits.{IsCommit};
ghost use Rattle.ls_vault.specs.declared.vault.Vault.{Vault as Vaults};
ghost use Rattle.ls_standing.specs.Standing.{StandsDurably};
ghost use Rattle.ls_change.specs.Work.{HasRoom, IsDuring, IsCut, actions_of, next_of};
ghost use Rattle.ls_adding.specs.Adding.{NewUser, AddsUser, with_new};

use ls_board::{Board, Part};
use ls_change::{Work, carry_out};
use ls_settings::{Committed, Settings};

/// Adds a user without escrow and without a credential: writes its protector, and commits its row.
/// For every vault for which the world stands it stands then for the vault with the user, and a
/// crash at any moment leaves the one or the other.
pub fn add_user<B: Board>(
    board: &mut B,
    settings: &mut Settings,
    work: Work,
) -> Result<Committed, Part>
    ghost user: { NewUser }
    requires room { HasRoom (B.sight board.old) work }
    requires prepared { IsCommit settings.old work.commit.to work.commit.actions }
    requires adds { IsTrue (B.sight board.old).told
        → AddsUser (B.sight board.old).world settings.old work user }
    ensures named { IfOk result (λ done. done ≡ next_of work) }
    ensures becomes { OnOk result (settings.new ≡ work.commit.to) }
    ensures either { OnErr result ((settings.new ≡ settings.old) ⊎ (settings.new ≡ work.commit.to)) }
    ensures did { OnOk result (Did (B.sight board.old) (actions_of work) (B.sight board.new)) }
    ensures keeps { Keeps (λ part. part) (B.sight board.old) (B.sight board.new) result }
    ensures rest { IsTrue (B.sight board.old).told
        → SameRest (B.sight board.old).world (B.sight board.new).world }
    ensures cut { IsTrue (B.sight board.old).told
        → LeavesOnly (B.sight board.old) (B.sight board.new)
        (IsCut (B.sight board.old).world settings.old.settled work) }
    ensures crash { IsTrue (B.sight board.old).told → (v : Vaults)
        → StandsDurably (B.sight board.old).world settings.old.settled v
        → LeavesOnly (B.sight board.old) (B.sight board.new)
        (IsDuring (B.sight board.old).world settings.old.settled work.commit.to.settled v
        (with_new v user)) }
    ensures done { IsTrue (B.sight board.old).told → (v : Vaults)
        → StandsDurably (B.sight board.old).world settings.old.settled v
        → OnOk result (StandsDurably (B.sight board.new).world work.commit.to.settled
        (with_new v user)) }
    ensures ready { IsTrue (B.sight board.old).told
        → OnOk result (IsReady (B.sight board.new).world work.commit.to) }
{
    carry_out(board, settings, work)
}
