//! Carrying out a change of the vault by protectors.
ghost use Rattle.std.specs.Prelude.{◌≡◌, ◌⊎◌, ◌≤◌, ◌+◌, ◌++◌, IsTrue, IfOk, IfErr, OnOk, OnErr, length, vec_len, vec_capacity};
ghost use Rattle.ls_board.specs.Acts.{Sight};
ghost use Rattle.ls_board.specs.Runs.{Did, FailedIn, LeavesOnly};
ghost use Rattle.ls_board.specs.Keeping.{Keeps};
ghost use Rattle.ls_board.specs.Rest.{SameRest};
ghost use Rattle.ls_settings.specs.Loaded.{IsReady};
ghost use Rattle.ls_settings.specs.Commits.{IsCommit};
ghost use Rattle.ls_vault.specs.declared.vault.Vault.{Vault as Vaults};
ghost use Rattle.ls_standing.specs.Standing.{StandsDurably};
ghost use Rattle.ls_change.specs.Work.{HasRoom, IsQuietWork, Readies, IsCut, IsDuring};
ghost use Rattle.ls_change.specs.Work.{actions_of, next_of};
ghost use Rattle.ls_exchange.specs.Exchanges.{plain, new_parts, AreNew, AreNamed, AreLeftOut, HasFirstOf};

use crate::clearing::{bind_all, clear_away};
use crate::staging::build_all;
use crate::work::Exchange;
use ls_board::{Board, Part};
use ls_protector::{Named, Retired};
use ls_settings::{Committed, Settings};

/// Stages the new protectors, does the other actions before the commit and settles the protectors;
/// commits; erases those that are let go, and does the actions behind it. Then the new ones are
/// named. It takes no memory. After a fault the world stands for the old vault or the new one, and
/// these settings serve no more; what was staged is left to the next opening.
pub fn exchange<B: Board>(
    board: &mut B,
    settings: &mut Settings,
    work: Exchange,
    named: &mut Vec<Named>,
    retired: &mut Vec<Retired>,
) -> Result<Committed, Part>
    requires room { HasRoom (B.sight board.old) (plain work) }
    // The commit was prepared from these settings.
    requires prepared { IsCommit settings.old work.commit.to work.commit.actions }
    requires quiet { IsTrue (B.sight board.old).told
        → IsQuietWork (B.sight board.old).world settings.old (plain work) }
    requires fresh { IsTrue (B.sight board.old).told
        → AreNew (B.sight board.old).world settings.old work }
    requires names { AreNamed work }
    requires left_out { IsTrue (B.sight board.old).told
        → AreLeftOut (B.sight board.old).world work }
    // There are places in the lists.
    requires named_room { vec_len named.old + length work.drafts ≤ vec_capacity named.old }
    requires retired_room { vec_len retired.old + length work.retire ≤ vec_capacity retired.old }
    ensures committed { IfOk result (λ done. done ≡ next_of (plain work)) }
    ensures becomes { OnOk result (settings.new ≡ work.commit.to) }
    ensures either { OnErr result
        ((settings.new ≡ settings.old) ⊎ (settings.new ≡ work.commit.to)) }
    ensures did { OnOk result
        (Did (B.sight board.old) (actions_of (plain work)) (B.sight board.new)) }
    // After a fault all before one of its actions was done, and this one failed.
    ensures failed { IfErr result (λ part.
        FailedIn (B.sight board.old) (actions_of (plain work)) part (B.sight board.new)) }
    // A fault comes only where a count rose.
    ensures keeps { Keeps (λ part. part) (B.sight board.old) (B.sight board.new) result }
    // Whatever it answers, nothing was said, heard or drawn, no moment was taken, and there are as
    // many slots.
    ensures rest { IsTrue (B.sight board.old).told
        → SameRest (B.sight board.old).world (B.sight board.new).world }
    // Whatever the worlds stand for, a crash leaves the old settings or the next ones, and no more
    // was done than these actions do.
    ensures cut { IsTrue (B.sight board.old).told
        → LeavesOnly (B.sight board.old) (B.sight board.new)
        (IsCut (B.sight board.old).world settings.old.settled (plain work)) }
    // A crash at any moment, or within any call, leaves the old vault or the new one, for every
    // vault for which the world stands.
    ensures crash { IsTrue (B.sight board.old).told → (old new : Vaults)
        → StandsDurably (B.sight board.old).world settings.old.settled old
        → Readies (B.sight board.old).world (plain work) new
        → LeavesOnly (B.sight board.old) (B.sight board.new)
        (IsDuring (B.sight board.old).world settings.old.settled work.commit.to.settled old new) }
    // After it the world stands for the new vault, and so does each image.
    ensures done { IsTrue (B.sight board.old).told → (new : Vaults)
        → Readies (B.sight board.old).world (plain work) new
        → OnOk result (StandsDurably (B.sight board.new).world work.commit.to.settled new) }
    ensures ready { IsTrue (B.sight board.old).told
        → OnOk result (IsReady (B.sight board.new).world work.commit.to) }
    // The new protectors are named, and those that were let go are retired.
    ensures bound { OnOk result
        (named.new.items ≡ named.old.items ++ new_parts work.drafts) }
    ensures retires { OnOk result
        (retired.new.items ≡ retired.old.items ++ work.retire) }
    // After a fault none more is named, and the first of those may be retired.
    ensures unbound { OnErr result (named.new ≡ named.old) }
    ensures retires_some { HasFirstOf retired.old.items work.retire retired.new.items }
{
    let Exchange {
        drafts,
        others,
        commit,
        retire,
        after,
        staged,
        mut durable,
    } = work;
    if let Err(part) = build_all(board, drafts, &others, staged, &mut durable) {
        return Err(part);
    }
    let done = match settings.commit(board, commit) {
        Ok(done) => done,
        Err(part) => return Err(part),
    };
    if let Err(part) = clear_away(board, retire, &after, &done, retired) {
        return Err(part);
    }
    bind_all(durable, &done, named);
    Ok(done)
}
