//! New protectors are built, with what their change makes besides, and put on the disk.
ghost use Rattle.std.specs.Prelude.{◌≡◌, ◌≤◌, ◌+◌, ◌<◌, ◌++◌, ◌∷◌, [], IsTrue, OnOk, length, vec_len, vec_capacity};
ghost use Rattle.ls_board.specs.declared.action.Action.TheVariants.{Sync as Syncs};
ghost use Rattle.ls_board.specs.Acts.{Sight};
ghost use Rattle.ls_board.specs.Reach.{AllTouchOnly};
ghost use Rattle.ls_board.specs.Runs.{CanRun};
ghost use Rattle.ls_protector.specs.Clear.{IsClearOf};
ghost use Rattle.ls_exchange.specs.Exchanges.{new_parts, staging_of, settling_of};
ghost use Rattle.ls_exchange.specs.Turns.{Runs, DraftsAreClear, storage};

use crate::lists::{abandon_all, discard_all, take_first};
use crate::others::run_others;
use ls_board::{Board, Part, Plan};
use ls_protector::{Draft, Durable, Staged, settle, stage};

// ---- staging

/// Stages a protector. There is a place for it.
fn stage_one<B: Board>(board: &mut B, draft: Draft, staged: &mut Vec<Staged>) -> Result<(), Part>
    requires run { CanRun (B.sight board.old) draft.plan }
    requires clear { IsClearOf (B.sight board.old) draft.parts }
    requires room { vec_len staged.old < vec_capacity staged.old }
    ensures runs { Runs (B.sight board.old) draft.plan result (B.sight board.new) }
    ensures put { OnOk result (staged.new.items ≡ staged.old.items ++ draft.parts ∷ []) }
    ensures len { OnOk result (vec_len staged.new ≡ vec_len staged.old + 1) }
    ensures capacity { vec_capacity staged.new ≡ vec_capacity staged.old }
{
    match stage(board, draft) {
        Ok(one) => {
            staged.push_reserved(one);
            Ok(())
        }
        Err((retired, part)) => {
            retired.abandon();
            Err(part)
        }
    }
}

/// Stages each, in order. There is a place for each. After a fault those that are left are let go.
fn stage_all<B: Board>(
    board: &mut B,
    mut drafts: Vec<Draft>,
    staged: &mut Vec<Staged>,
) -> Result<(), Part>
    requires run { CanRun (B.sight board.old) (staging_of drafts.items) }
    requires clear { IsTrue (B.sight board.old).told
        → DraftsAreClear (B.sight board.old).world drafts.items }
    requires room { vec_len staged.old + length drafts.items ≤ vec_capacity staged.old }
    ensures runs { Runs (B.sight board.old) (staging_of drafts.items) result (B.sight board.new) }
    ensures put { OnOk result (staged.new.items ≡ staged.old.items ++ new_parts drafts.items) }
{
    while let Some(draft) = take_first(&mut drafts) {
        if let Err(part) = stage_one(board, draft, staged) {
            discard_all(drafts);
            return Err(part);
        }
    }
    drafts.destroy_empty();
    Ok(())
}

// ---- settling

/// Puts a protector on the disk. There is a place for it.
fn settle_one<B: Board>(
    board: &mut B,
    staged: Staged,
    durable: &mut Vec<Durable>,
) -> Result<(), Part>
    requires run { CanRun (B.sight board.old) (Syncs ∷ []) }
    requires room { vec_len durable.old < vec_capacity durable.old }
    ensures runs { Runs (B.sight board.old) (Syncs ∷ []) result (B.sight board.new) }
    ensures put { OnOk result (durable.new.items ≡ durable.old.items ++ staged ∷ []) }
    ensures len { OnOk result (vec_len durable.new ≡ vec_len durable.old + 1) }
    ensures capacity { vec_capacity durable.new ≡ vec_capacity durable.old }
{
    match settle(board, staged) {
        Ok(one) => {
            durable.push_reserved(one);
            Ok(())
        }
        Err((retired, part)) => {
            retired.abandon();
            Err(part)
        }
    }
}

/// Puts each on the disk. There is a place for each. After a fault those that are left are let go.
fn settle_all<B: Board>(
    board: &mut B,
    mut staged: Vec<Staged>,
    durable: &mut Vec<Durable>,
) -> Result<(), Part>
    requires run { CanRun (B.sight board.old) (settling_of staged.items) }
    requires room { vec_len durable.old + length staged.items ≤ vec_capacity durable.old }
    ensures runs { Runs (B.sight board.old) (settling_of staged.items) result
        (B.sight board.new) }
    ensures put { OnOk result (durable.new.items ≡ durable.old.items ++ staged.items) }
{
    while let Some(one) = take_first(&mut staged) {
        if let Err(part) = settle_one(board, one, durable) {
            abandon_all(staged);
            return Err(part);
        }
    }
    staged.destroy_empty();
    Ok(())
}

// ---- both

/// Stages the protectors, does other actions, and settles the protectors. There are places for
/// them.
pub(crate) fn build_all<B: Board>(
    board: &mut B,
    drafts: Vec<Draft>,
    others: &Plan,
    mut staged: Vec<Staged>,
    durable: &mut Vec<Durable>,
) -> Result<(), Part>
    requires run { CanRun (B.sight board.old)
        (staging_of drafts.items ++ (others.now ++ settling_of (new_parts drafts.items))) }
    requires clear { IsTrue (B.sight board.old).told
        → DraftsAreClear (B.sight board.old).world drafts.items }
    requires stored { IsTrue (B.sight board.old).told → AllTouchOnly storage others.now }
    requires none { (staged.items ≡ []) × (durable.old.items ≡ []) }
    requires room { (length drafts.items ≤ vec_capacity staged)
        × (length drafts.items ≤ vec_capacity durable.old) }
    ensures runs { Runs (B.sight board.old)
        (staging_of drafts.items ++ (others.now ++ settling_of (new_parts drafts.items)))
        result (B.sight board.new) }
    ensures built { OnOk result (durable.new.items ≡ new_parts drafts.items) }
{
    if let Err(part) = stage_all(board, drafts, &mut staged) {
        abandon_all(staged);
        return Err(part);
    }
    if let Err(part) = run_others(board, others) {
        abandon_all(staged);
        return Err(part);
    }
    match settle_all(board, staged, durable) {
        Ok(()) => Ok(()),
        Err(part) => Err(part),
    }
}
