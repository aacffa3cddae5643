//! The row of a user with further tokens, and its commit.
ghost use Rattle.std.specs.Prelude.{◌≡◌, ◌++◌, IfOk, OnOk};
ghost use Rattle.ls_edits.specs.Rows.{with_more_tokens};
ghost use Rattle.ls_record.specs.declared.edit.Edit.TheVariants.{PutRow};
ghost use Rattle.ls_record.specs.Edits.{changed, MayChange};
ghost use Rattle.ls_settings.specs.Commits.{IsCommit};

use ls_bytes::{IdList, Memory};
use ls_record::{Edit, UserRow};
use ls_settings::{CommitPlan, PrepareFault, Settings};
use std::alloc::Global;

/// Adds ids at the end.
fn push_all(to: &mut IdList, ids: &[u64]) -> Result<(), Memory>
    ensures pushed { OnOk result (to.new ≡ to.old ++ ids.now) }
{
    for id in ids {
        to.push(*id)?;
    }
    Ok(())
}

/// The row with these tokens behind its own.
fn row_with(alloc: Global, row: &UserRow, ids: &IdList) -> Result<UserRow, Memory>
    ensures same { IfOk result (λ longer. longer ≡ with_more_tokens ids.now row.now) }
{
    let mut tokens = IdList::new(alloc);
    push_all(&mut tokens, row.tokens.as_slice())?;
    push_all(&mut tokens, ids.as_slice())?;
    Ok(UserRow {
        user: row.user,
        escrow: row.escrow,
        kind: row.kind,
        auto: row.auto,
        pin: row.pin,
        protector: row.protector,
        secure: row.secure,
        tokens,
    })
}

/// The commit of the row with these tokens behind its own.
pub(crate) fn commit_row(
    alloc: Global,
    settings: &Settings,
    row: &UserRow,
    ids: &IdList,
) -> Result<CommitPlan, PrepareFault>
    requires may { MayChange settings.now.settled.rec
        (PutRow (with_more_tokens ids.now row.now)) }
    ensures commit { IfOk result (λ plan. IsCommit settings.now plan.to plan.actions) }
    ensures next { IfOk result (λ plan. plan.to.settled.rec
        ≡ changed settings.now.settled.rec (PutRow (with_more_tokens ids.now row.now))) }
{
    let put = Edit::PutRow(row_with(alloc, row, ids)?);
    let next = settings.record().changed(alloc, &put)?;
    settings.prepare(alloc, next)
}
