//! Carrying out a sweep.
ghost use Rattle.std.specs.Prelude.{◌≡◌, ◌⊎◌, ◌≤◌, ◌∷◌, [], length, sum_by, IfOk, OnOk};
ghost use Rattle.ls_board.specs.declared.world.World.{World as Worlds};
ghost use Rattle.ls_board.specs.Acts.{Sight};
ghost use Rattle.ls_board.specs.Effect.{weight_of};
ghost use Rattle.ls_board.specs.Runs.{AllApply, AllSound, CanRun};
ghost use Rattle.ls_naming.specs.Named.{only_if};
ghost use Rattle.ls_reading.specs.Reading.{Reads};
ghost use Rattle.ls_protector.specs.Steps.{Steps};
ghost use Rattle.ls_sweep.specs.Swept.{IsSweepOf, Sweeps};

use crate::leftovers::{Sweep, sweep_plan};
use crate::sift::unnamed;
use crate::slot_files::named_slots;
use ls_board::{Action, Board, BoardFault, Part, Plan, run_plan};
use ls_record::Record;
use std::alloc::Global;

// ---- a sweep that was planned

/// Does one of the last actions. It takes no memory: the allocator is that of the empty list for
/// its answer.
fn act_one<B: Board>(alloc: Global, board: &mut B, action: &Action) -> Result<(), Part>
    requires run { CanRun (B.sight board.old) (action.now ∷ []) }
    requires last { (action.now ≡ Action.ResumeTake) ⊎ (action.now ≡ Action.Sync) }
    ensures steps { Steps (B.sight board.old) (action.now ∷ []) result (B.sight board.new) }
{
    let mut out = Vec::new(alloc);
    match board.act(action, &mut out) {
        Ok(_) => Ok(()),
        Err(BoardFault::Failed(part)) => Err(part),
        Err(BoardFault::Memory) => unreachable!(),
    }
}

/// Does the actions of a plan.
fn run<B: Board>(board: &mut B, plan: &Plan) -> Result<(), Part>
    requires run { CanRun (B.sight board.old) plan.now }
    ensures steps { Steps (B.sight board.old) plan.now result (B.sight board.new) }
{
    match run_plan(board, plan) {
        Ok(()) => Ok(()),
        Err(fault) => Err(fault.part),
    }
}

/// Empties the cell, and lets go what was in it. It takes no memory.
pub fn empty_cell<B: Board>(alloc: Global, board: &mut B) -> Result<(), Part>
    requires run { CanRun (B.sight board.old) (Action.ResumeTake ∷ []) }
    ensures steps { Steps (B.sight board.old) (Action.ResumeTake ∷ []) result (B.sight board.new) }
{
    act_one(alloc, board, &Action::ResumeTake)
}

/// Empties the cell, where it is to be emptied.
fn take_cell<B: Board>(alloc: Global, board: &mut B, takes_cell: bool) -> Result<(), Part>
    requires run { CanRun (B.sight board.old) (only_if takes_cell (Action.ResumeTake ∷ [])) }
    ensures steps { Steps (B.sight board.old)
        (only_if takes_cell (Action.ResumeTake ∷ [])) result (B.sight board.new) }
{
    if takes_cell {
        empty_cell(alloc, board)
    } else {
        Ok(())
    }
}

/// Puts all changes of files on the disk.
fn sync<B: Board>(alloc: Global, board: &mut B) -> Result<(), Part>
    requires run { CanRun (B.sight board.old) (Action.Sync ∷ []) }
    ensures steps { Steps (B.sight board.old) (Action.Sync ∷ []) result (B.sight board.new) }
{
    act_one(alloc, board, &Action::Sync)
}

/// Does the actions of a sweep in their order, and stops at the first that fails. It takes no
/// memory.
pub fn sweep<B: Board>(alloc: Global, board: &mut B, planned: &Sweep) -> Result<(), Part>
    requires run { CanRun (B.sight board.old) planned.now }
    ensures steps { Steps (B.sight board.old) planned.now result (B.sight board.new) }
{
    run(board, &planned.plan)?;
    take_cell(alloc, board, planned.takes_cell)?;
    sync(alloc, board)
}

// ---- a sweep of all that is left over

/// Gives the board the room that a sweep uses up.
fn make_room<B: Board>(alloc: Global, board: &mut B, planned: &Sweep) -> Result<(), BoardFault>
    ensures reads { Reads (λ w done. Unit {0}) (B.sight board.old) result (B.sight board.new) }
    ensures actions { OnOk result (length planned.now ≤ (B.sight board.new).actions) }
    ensures bytes { OnOk result (sum_by weight_of planned.now ≤ (B.sight board.new).bytes) }
    ensures slots { (B.sight board.new).slots ≡ (B.sight board.old).slots }
{
    let Some((actions, bytes)) = planned.weight() else {
        return Err(BoardFault::Memory);
    };
    board.ready(alloc, actions, bytes)?;
    Ok(())
}

/// The sweep of all that is left over.
fn plan_sweep<B: Board>(alloc: Global, board: &mut B, holder: &Record) -> Result<Sweep, BoardFault>
    ensures reads { Reads (λ w planned. IsSweepOf w holder.now planned)
        (B.sight board.old) result (B.sight board.new) }
    ensures sound { IfOk result (λ planned. AllSound (B.sight board.new).slots planned) }
    ensures applies { IfOk result (λ planned. (w : Worlds) → AllApply w planned) }
{
    let used = named_slots(alloc, board, holder)?;
    let left = unnamed(alloc, board, holder, used.as_slice())?;
    match sweep_plan(alloc, &left) {
        Ok(planned) => Ok(planned),
        Err(_) => Err(BoardFault::Memory),
    }
}

/// The same, with room for it on the board.
fn prepare<B: Board>(alloc: Global, board: &mut B, holder: &Record) -> Result<Sweep, BoardFault>
    ensures reads { Reads (λ w planned. IsSweepOf w holder.now planned)
        (B.sight board.old) result (B.sight board.new) }
    ensures run { IfOk result (λ planned. CanRun (B.sight board.new) planned) }
{
    let planned = plan_sweep(alloc, board, holder)?;
    make_room(alloc, board, &planned)?;
    Ok(planned)
}

/// Takes away all that is left over on a board beside what the record names, as `unnamed` has it
/// for the slots that the record names, and nothing else, and puts that on the disk. It makes the
/// room for its calls. A file that isn't one of the service is left alone. After a fault some of it
/// may be left.
pub fn sweep_unnamed<B: Board>(
    alloc: Global,
    board: &mut B,
    holder: &Record,
) -> Result<(), BoardFault>
    ensures sweeps { Sweeps (B.sight board.old) holder.now result (B.sight board.new) }
{
    // a record keeps its rules, as is known where one of its fields is read
    let _users = &holder.users;
    let planned = prepare(alloc, board, holder)?;
    match sweep(alloc, board, &planned) {
        Ok(()) => Ok(()),
        Err(part) => Err(BoardFault::Failed(part)),
    }
}
