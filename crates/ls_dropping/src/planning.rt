//! What drops a user, planned.
ghost use Rattle.std.specs.Prelude.{◌≡◌, ◌↔◌, [], IfOk, Err};
ghost use Rattle.std.specs.List.{Contains};
ghost use Rattle.ls_naming.specs.Current.{last_sequence};
ghost use Rattle.ls_record.specs.declared.edit.Edit.TheVariants.{DropRow};
ghost use Rattle.ls_record.specs.Edits.{changed as edited, MayChange};
ghost use Rattle.ls_settings.specs.Commits.{IsCommit};
ghost use Rattle.ls_change.specs.Work.{next_of};
ghost use Rattle.ls_dropping.specs.Dropping.{dropping};

use ls_arming::Arming;
use ls_board::{Action, Plan};
use ls_bytes::Memory;
use ls_change::Work;
use ls_naming::has_secure;
use ls_record::{Edit, Record, UserRow};
use ls_retiring::{Built, erase_all_plan, remove_own_plan};
use ls_settings::{PrepareFault, Settings};
use std::alloc::Global;

/// The plan that takes a user away once its row is gone.
fn dropping_plan(
    alloc: Global,
    armed: &Option<Arming>,
    row: &UserRow,
    gone: &[Built],
) -> Result<Plan, Memory>
    ensures same { IfOk result (λ plan.
        plan ≡ dropping armed.now (record { row = row.now; gone = gone.now })) }
{
    let mut plan = erase_all_plan(alloc, gone)?;
    if has_secure(row) {
        plan.push(Action::GkForget { sid: row.secure })?;
    }
    plan.append(remove_own_plan(alloc, armed, row)?)?;
    plan.push(Action::Sync)?;
    Ok(plan)
}

/// The record without the row of a user who has one.
fn without_row(alloc: Global, record: &Record, user: u32) -> Result<Record, Memory>
    requires may { MayChange record.now (DropRow user) }
    ensures same { IfOk result (λ next. next ≡ edited record.now (DropRow user)) }
{
    record.changed(alloc, &Edit::DropRow { user })
}

/// The change that drops a user. Nothing is done. `Worn` comes exactly at the last sequence number.
pub fn drop_work(
    alloc: Global,
    settings: &Settings,
    row: &UserRow,
    gone: &[Built],
) -> Result<Work, PrepareFault>
    // The user is one of the record's.
    requires there { MayChange settings.now.settled.rec (DropRow row.now.user) }
    ensures before { IfOk result (λ work. work.before ≡ []) }
    ensures next { IfOk result (λ work.
        next_of work ≡ edited settings.now.settled.rec (DropRow row.now.user)) }
    ensures prepared { IfOk result (λ work.
        IsCommit settings.now work.commit.to work.commit.actions) }
    ensures after { IfOk result (λ work. work.after ≡
        dropping settings.now.settled.rec.armed (record { row = row.now; gone = gone.now })) }
    ensures worn { (result ≡ Err PrepareFault.Worn)
        ↔ (settings.now.settled.sequence ≡ last_sequence) }
{
    if settings.sequence() == u64::MAX {
        return Err(PrepareFault::Worn);
    }
    let record = settings.record();
    let next = without_row(alloc, record, row.user)?;
    let after = dropping_plan(alloc, &record.armed, row, gone)?;
    let commit = settings.prepare(alloc, next)?;
    Ok(Work {
        before: Plan::new(alloc),
        commit,
        after,
    })
}
