//! The plans that erase protectors, and leave their files.
ghost use Rattle.std.specs.Prelude.{◌≡◌, ◌++◌, ◌∷◌, [], replicate, is_some, IfOk, OnOk};
ghost use Rattle.ls_board.specs.declared.action.Action.TheVariants.{GkForget};
ghost use Rattle.ls_naming.specs.Named.{only_if};
ghost use Rattle.ls_sealing.specs.Building.{slot_writes};
ghost use Rattle.ls_sealing.specs.Protectors.{is_enrolled};
ghost use Rattle.ls_retiring.specs.Retiring.{purpose_of, erasing_of, erasing_all};

use crate::built::Built;
use ls_board::{Action, Plan};
use ls_bytes::Memory;
use ls_naming::has_credential;
use std::alloc::Global;

/// Whether the Gatekeeper has a record of its id: without Weaver, where there is a credential.
fn is_enrolled(built: &Built) -> bool
    ensures same { result ≡ is_enrolled (is_some built.now.place.slot) (purpose_of built.now.kind) }
{
    match built.kind {
        None => false,
        Some(kind) => built.place.slot.is_none() && has_credential(kind),
    }
}

/// Blanks the slot, where there is one.
fn push_blank(plan: &mut Plan, slot: Option<u32>) -> Result<(), Memory>
    ensures pushed { OnOk result
        (plan.new ≡ plan.old ++ slot_writes slot (replicate 16 0) (replicate 16 0)) }
{
    match slot {
        None => Ok(()),
        Some(slot) => plan.push(Action::WeaverWrite {
            slot,
            key: [0; 16],
            value: [0; 16],
        }),
    }
}

/// Forgets the Gatekeeper's record of an id, where it has one.
fn push_forget(plan: &mut Plan, id: u64, enrolled: bool) -> Result<(), Memory>
    ensures pushed { OnOk result
        (plan.new ≡ plan.old ++ only_if enrolled (GkForget id ∷ [])) }
{
    if !enrolled {
        return Ok(());
    }
    plan.push(Action::GkForget { sid: id })
}

/// The plan that erases a protector: its slot is blanked, its key is dropped, and its Gatekeeper
/// record is forgotten. Its files stay.
pub fn erase_plan(alloc: Global, built: &Built) -> Result<Plan, Memory>
    ensures erases { IfOk result (λ plan. plan ≡ erasing_of built.now) }
{
    let id = built.place.id;
    let enrolled = is_enrolled(built);
    let mut plan = Plan::new(alloc);
    push_blank(&mut plan, built.place.slot)?;
    plan.push(Action::KeyDrop { alias: id })?;
    push_forget(&mut plan, id, enrolled)?;
    Ok(plan)
}

/// Adds what erases these, one after the other.
fn push_erasing(alloc: Global, plan: &mut Plan, all: &[Built]) -> Result<(), Memory>
    ensures pushed { OnOk result (plan.new ≡ plan.old ++ erasing_all all.now) }
{
    match all {
        [] => Ok(()),
        [built, rest @ ..] => {
            plan.append(erase_plan(alloc, built)?)?;
            push_erasing(alloc, plan, rest)
        }
    }
}

/// The plan that erases several protectors, one after the other.
pub fn erase_all_plan(alloc: Global, all: &[Built]) -> Result<Plan, Memory>
    ensures erases { IfOk result (λ plan. plan ≡ erasing_all all.now) }
{
    let mut plan = Plan::new(alloc);
    push_erasing(alloc, &mut plan, all)?;
    Ok(plan)
}
