//! What is planned of a new user.
ghost use Rattle.std.specs.Prelude.{◌≡◌, ◌≤◌, IfOk, length};
ghost use Rattle.ls_edits.specs.Rows.{new_row};
ghost use Rattle.ls_record.specs.declared.edit.Edit.TheVariants.{PutRow};
ghost use Rattle.ls_record.specs.Edits.{changed, MayChange};
ghost use Rattle.ls_settings.specs.Commits.{IsCommit};
ghost use Rattle.ls_enrolling.specs.Enrolling.{block_at, half_files};

use crate::halves::halves_plan;
use ls_board::Plan;
use ls_bytes::IdList;
use ls_credential::Kind;
use ls_protector::Draft;
use ls_record::{Edit, UserRow};
use ls_secret::Secret;
use ls_settings::{CommitPlan, PrepareFault, Settings};
use std::alloc::Global;

/// The change that adds a user, planned. Nothing is done. It has to be spent.
pub(crate) struct Planned {
    /// The id of the protector, and its slot.
    pub(crate) id: u64,
    pub(crate) slot: Option<u32>,
    pub(crate) draft: Draft,
    /// What else is written before the commit.
    pub(crate) others: Plan,
    pub(crate) commit: CommitPlan,
}

/// The rest of it, beside the protector.
#[derive(Drop)]
pub(crate) struct Besides {
    pub(crate) others: Plan,
    pub(crate) commit: CommitPlan,
}

/// The row of a new user, who has no credential and no tokens.
fn new_row(alloc: Global, user: u32, escrow: bool, id: u64) -> UserRow
    ensures same { result ≡ record (new_row user id) { escrow = escrow } }
{
    UserRow {
        user,
        escrow,
        kind: Kind::Empty,
        auto: false,
        pin: 0,
        protector: id,
        secure: 0,
        tokens: IdList::new(alloc),
    }
}

/// The commit of that row.
fn commit_row(
    alloc: Global,
    settings: &Settings,
    user: u32,
    escrow: bool,
    id: u64,
) -> Result<CommitPlan, PrepareFault>
    requires may { MayChange settings.now.settled.rec
        (PutRow (record (new_row user id) { escrow = escrow })) }
    ensures commit { IfOk result (λ plan. IsCommit settings.now plan.to plan.actions) }
    ensures next { IfOk result (λ plan. plan.to.settled.rec ≡ changed settings.now.settled.rec
        (PutRow (record (new_row user id) { escrow = escrow }))) }
{
    let put = Edit::PutRow(new_row(alloc, user, escrow, id));
    let next = settings.record().changed(alloc, &put)?;
    settings.prepare(alloc, next)
}

/// What is planned beside the protector, by the secret and the drawn bytes.
pub(crate) fn plan_besides(
    alloc: Global,
    settings: &Settings,
    user: u32,
    escrow: bool,
    id: u64,
    secret: &Secret,
    drawn: &[u8],
) -> Result<Besides, PrepareFault>
    requires may { MayChange settings.now.settled.rec
        (PutRow (record (new_row user id) { escrow = escrow })) }
    requires drawn { block_at escrow ≤ length drawn.now }
    ensures others { IfOk result (λ b. b.others ≡ half_files user escrow secret.now drawn.now) }
    ensures commit { IfOk result (λ b. IsCommit settings.now b.commit.to b.commit.actions) }
    ensures next { IfOk result (λ b. b.commit.to.settled.rec ≡ changed settings.now.settled.rec
        (PutRow (record (new_row user id) { escrow = escrow }))) }
{
    let others = halves_plan(alloc, user, escrow, secret, drawn)?;
    let commit = commit_row(alloc, settings, user, escrow, id)?;
    Ok(Besides { others, commit })
}
