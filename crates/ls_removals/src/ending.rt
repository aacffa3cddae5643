//! What is planned where a user goes.
ghost use Rattle.std.specs.Prelude.{◌≡◌, ◌++◌, ◌∷◌, [], IfOk, OnOk};
ghost use Rattle.ls_board.specs.declared.action.Action.TheVariants.{GkForget, KeyDrop, ResumeTake};
ghost use Rattle.ls_naming.specs.Named.{has_secure, only_if};
ghost use Rattle.ls_record.specs.declared.edit.Edit.TheVariants.{DropRow};
ghost use Rattle.ls_record.specs.Edits.{changed, MayChange};
ghost use Rattle.ls_settings.specs.Commits.{IsCommit};
ghost use Rattle.ls_removals.specs.Ending.{ending, ends};

use crate::planning::Planned;
use ls_arming::Arming;
use ls_board::{Action, Plan};
use ls_bytes::Memory;
use ls_naming::has_secure;
use ls_record::{Edit, UserRow};
use ls_retiring::remove_own_plan;
use ls_settings::{PrepareFault, Settings};
use std::alloc::Global;

/// Forgets the secure id of a user who has one.
fn push_forget(plan: &mut Plan, row: &UserRow) -> Result<(), Memory>
    ensures pushed { OnOk result
        (plan.new ≡ plan.old ++ only_if (has_secure row.now) (GkForget row.now.secure ∷ [])) }
{
    if !has_secure(row) {
        return Ok(());
    }
    plan.push(Action::GkForget { sid: row.secure })
}

/// Takes the key of an arming that ends away.
fn push_disarming(plan: &mut Plan, ends: bool) -> Result<(), Memory>
    ensures pushed { OnOk result
        (plan.new ≡ plan.old ++ only_if ends (ResumeTake ∷ KeyDrop 0 ∷ [])) }
{
    if !ends {
        return Ok(());
    }
    plan.push(Action::ResumeTake)?;
    plan.push(Action::KeyDrop { alias: 0 })
}

/// Whether there was an arming and is none any more.
fn ends(was: &Option<Arming>, now: &Option<Arming>) -> bool
    ensures same { result ≡ ends was.now now.now }
{
    was.is_some() && !now.is_some()
}

/// What takes a user away beside its protectors.
fn ending_plan(
    alloc: Global,
    was: &Option<Arming>,
    now: &Option<Arming>,
    row: &UserRow,
) -> Result<Plan, Memory>
    ensures same { IfOk result (λ plan. plan ≡ ending was.now now.now row.now) }
{
    let mut plan = Plan::new(alloc);
    push_forget(&mut plan, row)?;
    plan.append(remove_own_plan(alloc, was, row)?)?;
    push_disarming(&mut plan, ends(was, now))?;
    plan.push(Action::Sync)?;
    Ok(plan)
}

/// A user goes: the record without its row is committed, and what is left of the user is taken away.
pub(crate) fn user_plan(
    alloc: Global,
    settings: &Settings,
    row: &UserRow,
) -> Result<Planned, PrepareFault>
    requires may { MayChange settings.now.settled.rec (DropRow row.now.user) }
    ensures commit { IfOk result (λ p. IsCommit settings.now p.commit.to p.commit.actions) }
    ensures next { IfOk result (λ p. p.commit.to.settled.rec
        ≡ changed settings.now.settled.rec (DropRow row.now.user)) }
    ensures after { IfOk result (λ p. p.after ≡ ending settings.now.settled.rec.armed
        (changed settings.now.settled.rec (DropRow row.now.user)).armed row.now) }
{
    let record = settings.record();
    let next = record.changed(alloc, &Edit::DropRow { user: row.user })?;
    let after = ending_plan(alloc, &record.armed, &next.armed, row)?;
    let commit = settings.prepare(alloc, next)?;
    Ok(Planned { commit, after })
}
