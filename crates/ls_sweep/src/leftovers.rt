//! All that a board keeps and its record doesn't name, and the actions that take it away.
ghost use Rattle.std.specs.Prelude.{◌≡◌, ◌<◌, ◌^◌, ◌++◌, ◌∷◌, [], map, length, sum_by, IfOk, IsSome, IfSome, OnOk};
ghost use Rattle.ls_board.specs.declared.action.Action.TheVariants.{Remove, GkForget, KeyDrop};
ghost use Rattle.ls_board.specs.Effect.{weight_of};
ghost use Rattle.ls_standing.specs.Clearing.{blank_write};
ghost use Rattle.ls_sweep.specs.Swept.{sweep_of};

use ls_board::{Action, Plan};
use ls_bytes::{IdList, Memory, Name, NameList, SlotList};
use std::alloc::Global;
use std::marker::Model;

/// What is left over on a board.
#[derive(Drop)]
pub struct Leftovers {
    /// The names of files of users and protectors.
    pub files: NameList,
    /// The numbers of slots.
    pub slots: SlotList,
    /// The ids of Gatekeeper records.
    pub enrolled: IdList,
    /// The aliases of keys.
    pub keys: IdList,
    /// Whether the cell is to be emptied.
    pub cell: bool,
}

/// The actions of a sweep: a plan, the taking of the resume cell where it is to be emptied, and a
/// Sync.
#[derive(Drop)]
pub struct Sweep {
    pub(crate) plan: Plan,
    pub(crate) takes_cell: bool,
}

impl Model for Sweep {
    ghost use Rattle.std.specs.Prelude.{◌++◌, ◌∷◌, [], List};
    ghost use Rattle.ls_board.specs.declared.action.Action.{Action};
    ghost use Rattle.ls_board.specs.declared.action.Action.TheVariants.{ResumeTake, Sync};
    ghost use Rattle.ls_naming.specs.Named.{only_if};

    ghost Value = { List Action };

    ghost view = { λ s. s.plan ++ (only_if s.takes_cell (ResumeTake ∷ []) ++ Sync ∷ []) };
}

impl Sweep {
    /// The room that the sweep uses up: its actions, and their bytes. None where they are more
    /// than a board can be asked for.
    pub fn weight(&self) -> Option<(u32, u64)>
        ensures actions { IfSome result (λ room. room.0 ≡ length self.now) }
        ensures bytes { IfSome result (λ room. room.1 ≡ sum_by weight_of self.now) }
        ensures fits { length self.now < 2 ^ 32 → IsSome result }
    {
        let (actions, bytes) = self.plan.weight();
        let last = if self.takes_cell { 2 } else { 1 };
        Some((actions.checked_add(last)?, bytes))
    }
}

/// Adds the removal of a file.
fn push_removal(alloc: Global, plan: &mut Plan, name: &Name) -> Result<(), Memory>
    ensures pushed { OnOk result (plan.new ≡ plan.old ++ map Remove (name.now ∷ [])) }
{
    match Name::of(alloc, name.as_slice()) {
        Ok(name) => plan.push(Action::Remove { name }),
        Err(_) => Err(Memory),
    }
}

/// Adds the removals of files.
fn push_removals(alloc: Global, plan: &mut Plan, names: &[Name]) -> Result<(), Memory>
    ensures pushed { OnOk result (plan.new ≡ plan.old ++ map Remove names.now) }
{
    for name in names {
        push_removal(alloc, plan, name)?;
    }
    Ok(())
}

/// Adds the writing of slots with zeros.
fn push_blanks(plan: &mut Plan, slots: &[u32]) -> Result<(), Memory>
    ensures pushed { OnOk result (plan.new ≡ plan.old ++ map blank_write slots.now) }
{
    for slot in slots {
        plan.push(Action::WeaverWrite {
            slot: *slot,
            key: [0; 16],
            value: [0; 16],
        })?;
    }
    Ok(())
}

/// Adds the forgetting of Gatekeeper records.
fn push_forgets(plan: &mut Plan, sids: &[u64]) -> Result<(), Memory>
    ensures pushed { OnOk result (plan.new ≡ plan.old ++ map GkForget sids.now) }
{
    for sid in sids {
        plan.push(Action::GkForget { sid: *sid })?;
    }
    Ok(())
}

/// Adds the dropping of keys.
fn push_drops(plan: &mut Plan, aliases: &[u64]) -> Result<(), Memory>
    ensures pushed { OnOk result (plan.new ≡ plan.old ++ map KeyDrop aliases.now) }
{
    for alias in aliases {
        plan.push(Action::KeyDrop { alias: *alias })?;
    }
    Ok(())
}

/// The sweep that takes away what is left over, and nothing else: files, slots, Gatekeeper records,
/// keys, and then the cell.
pub fn sweep_plan(alloc: Global, left: &Leftovers) -> Result<Sweep, Memory>
    ensures same { IfOk result (λ sweep. sweep ≡ sweep_of left.now) }
{
    let mut plan = Plan::new(alloc);
    push_removals(alloc, &mut plan, left.files.as_slice())?;
    push_blanks(&mut plan, left.slots.as_slice())?;
    push_forgets(&mut plan, left.enrolled.as_slice())?;
    push_drops(&mut plan, left.keys.as_slice())?;
    Ok(Sweep {
        plan,
        takes_cell: left.cell,
    })
}
