//! The plan that builds what is the user's own beside the protectors.
ghost use Rattle.std.specs.Prelude.{ℕ, IfOk, OnOk};
ghost use Rattle.ls_board.specs.declared.world.World.{World as Worlds};
ghost use Rattle.ls_board.specs.Effect.{Applies, IsSound};
ghost use Rattle.ls_board.specs.Planned.{IsPlanned};
ghost use Rattle.ls_board.specs.Reach.{TouchesOnly};
ghost use Rattle.ls_standing.specs.Quiet.{unnamed, IsQuiet};
ghost use Rattle.test_worlds.specs.Building.{Fits};

use crate::building::{P0, P1};
use crate::fault::RowFault;
use ls_board::{Action, Plan, World};
use ls_bytes::{Bytes, Name};
use ls_checker::is_quiet;
use ls_record::Record;
use ls_vault::User;
use std::alloc::Global;

/// Adds an action that is quiet in this world with this record.
#[tactic(auto, using(crate::proofs::PlanLemmas::fits_push))]
fn add(
    alloc: Global,
    plan: &mut Plan,
    world: &World,
    holder: &Record,
    action: Action,
) -> Result<(), RowFault>
    requires planned { IsPlanned action }
    requires sound { (slots : ℕ) → IsSound slots action }
    requires applies { (w : Worlds) → Applies w action }
    requires reaches { IsQuiet world.now holder.now action
        → TouchesOnly (unnamed world.now holder.now) action }
    requires begun { Fits world.now holder.now plan.old }
    ensures fits { OnOk result (Fits world.now holder.now plan.new) }
{
    if !is_quiet(alloc, world, holder, &action)? {
        return Err(RowFault::Form);
    }
    plan.push(action)?;
    Ok(())
}

/// Adds the putting of a file of the user.
fn add_file(
    alloc: Global,
    plan: &mut Plan,
    world: &World,
    holder: &Record,
    name: &[u8],
    bytes: Bytes,
) -> Result<(), RowFault>
    requires begun { Fits world.now holder.now plan.old }
    ensures fits { OnOk result (Fits world.now holder.now plan.new) }
{
    let name = Name::of(alloc, name)?;
    add(alloc, plan, world, holder, Action::Put { name, bytes })
}

/// Adds the files of escrow, where there may be tokens: the first half of the synthetic password,
/// sealed, and the second one.
fn add_escrow(
    alloc: Global,
    plan: &mut Plan,
    world: &World,
    holder: &Record,
    user: &User,
) -> Result<(), RowFault>
    requires begun { Fits world.now holder.now plan.old }
    ensures fits { OnOk result (Fits world.now holder.now plan.new) }
{
    if !user.escrow {
        return Ok(());
    }
    let e0 = user.secret.e0(alloc, &P0, b"abcdefghijkl")?;
    add_file(
        alloc,
        plan,
        world,
        holder,
        b"0000000a.0000000000000000.e0",
        e0,
    )?;
    let p1 = Bytes::of(alloc, &P1)?;
    add_file(
        alloc,
        plan,
        world,
        holder,
        b"0000000a.0000000000000000.p1",
        p1,
    )
}

/// Adds the record and the file of a secure id, where there is one.
fn add_secure(
    alloc: Global,
    plan: &mut Plan,
    world: &World,
    holder: &Record,
    sid: u64,
    handle: &[u8; 49],
) -> Result<(), RowFault>
    requires begun { Fits world.now holder.now plan.old }
    ensures fits { OnOk result (Fits world.now holder.now plan.new) }
{
    if sid == 0 {
        return Ok(());
    }
    add(alloc, plan, world, holder, Action::GkEnroll { sid })?;
    let bytes = Bytes::of(alloc, handle)?;
    add_file(
        alloc,
        plan,
        world,
        holder,
        b"0000000a.0000000000000000.handle",
        bytes,
    )
}

/// The plan that builds what is the user's own, and syncs.
pub fn user_plan(
    alloc: Global,
    world: &World,
    holder: &Record,
    user: &User,
    handle: &[u8; 49],
) -> Result<Plan, RowFault>
    ensures fits { IfOk result (Fits world.now holder.now) }
{
    let mut plan = Plan::new(alloc);
    add_escrow(alloc, &mut plan, world, holder, user)?;
    add_secure(alloc, &mut plan, world, holder, user.secure, handle)?;
    add(alloc, &mut plan, world, holder, Action::Sync)?;
    Ok(plan)
}
