//! What is planned of a change.
ghost use Rattle.std.specs.Prelude.{◌≡◌, IfOk};
ghost use Rattle.ls_record.specs.declared.edit.Edit.TheVariants.{PutRow};
ghost use Rattle.ls_record.specs.Edits.{changed, MayChange};
ghost use Rattle.ls_settings.specs.Commits.{IsCommit};
ghost use Rattle.ls_changing.specs.Replacing.{with_credential, enrolling, forgetting};

use crate::numbers::Numbers;
use crate::own::{enrolling_plan, forgetting_plan};
use crate::rows::row_with;
use ls_board::Plan;
use ls_credential::Credential;
use ls_protector::Draft;
use ls_record::{Edit, UserRow};
use ls_settings::{CommitPlan, PrepareFault, Settings};
use std::alloc::Global;

/// The change that gives a user another credential, planned. Nothing is done. It has to be spent.
pub(crate) struct Planned {
    /// The id of the old protector.
    pub(crate) gone: u64,
    /// The id of the new one, and its slot.
    pub(crate) id: u64,
    pub(crate) slot: Option<u32>,
    /// The secure id then.
    pub(crate) secure: u64,
    pub(crate) draft: Draft,
    /// What else is written before the commit.
    pub(crate) others: Plan,
    pub(crate) commit: CommitPlan,
    /// What is taken away behind it, beside the old protector.
    pub(crate) after: Plan,
}

/// What is planned beside the new protector.
#[derive(Drop)]
pub(crate) struct Besides {
    pub(crate) others: Plan,
    pub(crate) commit: CommitPlan,
    pub(crate) after: Plan,
}

/// The commit of the row with another credential.
fn commit_row(
    alloc: Global,
    settings: &Settings,
    row: &UserRow,
    new: &Credential,
    n: &Numbers,
) -> Result<CommitPlan, PrepareFault>
    requires may { MayChange settings.now.settled.rec
        (PutRow (with_credential new.now n.now.id n.now.secure row.now)) }
    ensures commit { IfOk result (λ plan. IsCommit settings.now plan.to plan.actions) }
    ensures next { IfOk result (λ plan. plan.to.settled.rec ≡ changed settings.now.settled.rec
        (PutRow (with_credential new.now n.now.id n.now.secure row.now))) }
{
    let put = Edit::PutRow(row_with(alloc, row, new, n.id, n.secure)?);
    let next = settings.record().changed(alloc, &put)?;
    settings.prepare(alloc, next)
}

/// It, with this handle of a secure id that comes.
pub(crate) fn plan_besides(
    alloc: Global,
    settings: &Settings,
    row: &UserRow,
    new: &Credential,
    n: &Numbers,
    handle: &[u8; 49],
) -> Result<Besides, PrepareFault>
    requires may { MayChange settings.now.settled.rec
        (PutRow (with_credential new.now n.now.id n.now.secure row.now)) }
    ensures others { IfOk result (λ b. b.others ≡ enrolling row.now n.now.secure handle.now) }
    ensures after { IfOk result (λ b. b.after ≡ forgetting row.now n.now.secure) }
    ensures commit { IfOk result (λ b. IsCommit settings.now b.commit.to b.commit.actions) }
    ensures next { IfOk result (λ b. b.commit.to.settled.rec ≡ changed settings.now.settled.rec
        (PutRow (with_credential new.now n.now.id n.now.secure row.now))) }
{
    let others = enrolling_plan(alloc, row, n.secure, handle)?;
    let after = forgetting_plan(alloc, row, n.secure)?;
    let commit = commit_row(alloc, settings, row, new, n)?;
    Ok(Besides {
        others,
        commit,
        after,
    })
}
