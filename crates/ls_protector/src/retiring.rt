//! A protector on its way out.
ghost use Rattle.std.specs.Prelude.{◌≡◌, ◌≤◌, ◌<◌, ◌∷◌, [], IsTrue, IfOk, IfErr, IfSome, OnOk, length, replicate};
ghost use Rattle.ls_board.specs.Acts.{Sight};
ghost use Rattle.ls_board.specs.Keeping.{Keeps};
ghost use Rattle.ls_board.specs.Reach.{SameBut};
ghost use Rattle.ls_board.specs.Runs.{CanRun, Did, FailedIn, LeavesOnly, PlanImage};
ghost use Rattle.ls_naming.specs.Named.{only_if};
ghost use Rattle.ls_sealing.specs.Building.{slot_writes};
ghost use Rattle.ls_standing.specs.Clearing.{blank_write};
ghost use Rattle.ls_protector.specs.Parts.{erasing_of, reach_of_parts};
ghost use Rattle.ls_protector.specs.Clear.{IsClearOf, KeepsVaults};
ghost use Rattle.ls_protector.specs.Settled.{IsErased};
ghost use Rattle.ls_protector.specs.Steps.{Steps, part_of_failed};

use crate::act::act_one;
use crate::states::{Named, Retired};
use ls_board::{Action, Board, Part};
use ls_formats::Parts;
use ls_settings::Committed;

/// Writes zeros into a slot.
fn write_zeros<B: Board>(board: &mut B, parts: &Parts, slot: u32) -> Result<(), Part>
    requires run { CanRun (B.sight board.old) (blank_write slot ∷ []) }
    ensures steps { Steps (B.sight board.old) (blank_write slot ∷ []) result
        (B.sight board.new) }
{
    let action = Action::WeaverWrite {
        slot,
        key: [0; 16],
        value: [0; 16],
    };
    act_one(board, parts.names.allocator(), &action)
}

/// Blanks the slot, if there is one.
fn blank_slot<B: Board>(board: &mut B, parts: &Parts) -> Result<(), Part>
    requires run { CanRun (B.sight board.old)
        (slot_writes parts.now.slot (replicate 16 0) (replicate 16 0)) }
    ensures steps { Steps (B.sight board.old)
        (slot_writes parts.now.slot (replicate 16 0) (replicate 16 0)) result (B.sight board.new) }
{
    match parts.slot {
        Some(slot) => write_zeros(board, parts, slot),
        None => Ok(()),
    }
}

/// Drops the key.
fn drop_key<B: Board>(board: &mut B, parts: &Parts) -> Result<(), Part>
    requires run { CanRun (B.sight board.old) (Action.KeyDrop parts.now.id ∷ []) }
    ensures steps { Steps (B.sight board.old) (Action.KeyDrop parts.now.id ∷ []) result
        (B.sight board.new) }
{
    let action = Action::KeyDrop { alias: parts.id };
    act_one(board, parts.names.allocator(), &action)
}

/// Forgets the Gatekeeper's record, if there is one.
fn forget_record<B: Board>(board: &mut B, parts: &Parts) -> Result<(), Part>
    requires run { CanRun (B.sight board.old)
        (only_if parts.now.gk (Action.GkForget parts.now.id ∷ [])) }
    ensures steps { Steps (B.sight board.old)
        (only_if parts.now.gk (Action.GkForget parts.now.id ∷ [])) result (B.sight board.new) }
{
    if !parts.gk {
        return Ok(());
    }
    let action = Action::GkForget { sid: parts.id };
    act_one(board, parts.names.allocator(), &action)
}

/// Erases what the devices have of the parts.
fn erase<B: Board>(board: &mut B, parts: &Parts) -> Result<(), Part>
    requires run { CanRun (B.sight board.old) (erasing_of parts.now) }
    ensures steps { Steps (B.sight board.old) (erasing_of parts.now) result (B.sight board.new) }
{
    blank_slot(board, parts)?;
    drop_key(board, parts)?;
    forget_record(board, parts)
}

/// Erases what the devices have of a protector that the committed record leaves out. Its files are
/// left. It takes no memory. What is named is changed at no moment and in no image. After a fault
/// it comes back, to be abandoned.
pub fn retire<B: Board>(
    board: &mut B,
    named: Named,
    done: &Committed,
) -> Result<Retired, (Retired, Part)>
    requires clear { IsClearOf (B.sight board.old) named }
    requires slot { IfSome named.slot (λ n. n < (B.sight board.old).slots) }
    requires room { length (erasing_of named) ≤ (B.sight board.old).actions }
    ensures parts { IfOk result (λ retired. retired ≡ named) }
    ensures back { IfErr result (λ failed. failed.0 ≡ named) }
    ensures did { OnOk result (Did (B.sight board.old) (erasing_of named) (B.sight board.new)) }
    ensures failed { IfErr result (λ failed.
        FailedIn (B.sight board.old) (erasing_of named) failed.1 (B.sight board.new)) }
    ensures keeps { Keeps (λ part. part) (B.sight board.old) (B.sight board.new)
        (part_of_failed result) }
    ensures crash { IsTrue (B.sight board.old).told
        → LeavesOnly (B.sight board.old) (B.sight board.new)
        (PlanImage (B.sight board.old).world (erasing_of named)) }
    ensures erased { IsTrue (B.sight board.old).told
        → IfOk result (λ retired. IsErased (B.sight board.new).world retired) }
    // Whatever it answers, all but its parts stays.
    ensures but { IsTrue (B.sight board.old).told
        → SameBut (reach_of_parts named) (B.sight board.old).world (B.sight board.new).world }
    ensures stands { KeepsVaults (B.sight board.old) (B.sight board.new) }
{
    let Named { parts } = named;
    match erase(board, &parts) {
        Ok(()) => Ok(Retired { parts }),
        Err(part) => Err((Retired { parts }, part)),
    }
}
