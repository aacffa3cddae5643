//! What is planned where something goes.
ghost use Rattle.std.specs.Prelude.{◌≡◌, ◌==◌, ◌∷◌, [], not, IfOk};
ghost use Rattle.ls_board.specs.declared.action.Action.TheVariants.{Remove, Sync};
ghost use Rattle.ls_edits.specs.Rows.{with_tokens_of, without_escrow};
ghost use Rattle.ls_formats.specs.declared.part.FilePart.TheVariants.{E0, P1};
ghost use Rattle.ls_record.specs.declared.edit.Edit.TheVariants.{PutRow};
ghost use Rattle.ls_record.specs.Edits.{changed, MayChange};
ghost use Rattle.ls_retiring.specs.Retiring.{own_name};
ghost use Rattle.ls_settings.specs.Commits.{IsCommit};

use crate::own::push_remove;
use crate::rows::{without_escrow, without_token};
use ls_board::{Action, Plan};
use ls_formats::FilePart;
use ls_record::{Edit, UserRow};
use ls_settings::{CommitPlan, PrepareFault, Settings};
use std::alloc::Global;

/// The commit of a record that leaves something out, and what is taken away behind it beside
/// protectors.
#[derive(Drop)]
pub(crate) struct Planned {
    pub(crate) commit: CommitPlan,
    pub(crate) after: Plan,
}

/// The commit of the record with a change.
fn commit_edit(alloc: Global, settings: &Settings, edit: &Edit) -> Result<CommitPlan, PrepareFault>
    requires may { MayChange settings.now.settled.rec edit.now }
    ensures commit { IfOk result (λ plan. IsCommit settings.now plan.to plan.actions) }
    ensures next { IfOk result (λ plan.
        plan.to.settled.rec ≡ changed settings.now.settled.rec edit.now) }
{
    let next = settings.record().changed(alloc, edit)?;
    settings.prepare(alloc, next)
}

/// A token of a user goes: the row without it is committed.
pub(crate) fn token_plan(
    alloc: Global,
    settings: &Settings,
    row: &UserRow,
    id: u64,
) -> Result<Planned, PrepareFault>
    requires may { MayChange settings.now.settled.rec
        (PutRow (with_tokens_of (λ t. not (t == id)) row.now)) }
    ensures commit { IfOk result (λ p. IsCommit settings.now p.commit.to p.commit.actions) }
    ensures next { IfOk result (λ p. p.commit.to.settled.rec ≡ changed settings.now.settled.rec
        (PutRow (with_tokens_of (λ t. not (t == id)) row.now))) }
    ensures after { IfOk result (λ p. p.after ≡ Sync ∷ []) }
{
    let edit = Edit::PutRow(without_token(alloc, row, id)?);
    let mut after = Plan::new(alloc);
    after.push(Action::Sync)?;
    let commit = commit_edit(alloc, settings, &edit)?;
    Ok(Planned { commit, after })
}

/// The tokens of a user end: the row without them is committed, and the two files of the user that
/// complete a token's secret are removed.
pub(crate) fn escrow_plan(
    alloc: Global,
    settings: &Settings,
    row: &UserRow,
) -> Result<Planned, PrepareFault>
    requires may { MayChange settings.now.settled.rec (PutRow (without_escrow row.now)) }
    ensures commit { IfOk result (λ p. IsCommit settings.now p.commit.to p.commit.actions) }
    ensures next { IfOk result (λ p. p.commit.to.settled.rec ≡ changed settings.now.settled.rec
        (PutRow (without_escrow row.now))) }
    ensures after { IfOk result (λ p. p.after
        ≡ Remove (own_name row.now.user E0) ∷ Remove (own_name row.now.user P1) ∷ Sync ∷ []) }
{
    let mut after = Plan::new(alloc);
    push_remove(alloc, &mut after, row.user, FilePart::E0)?;
    push_remove(alloc, &mut after, row.user, FilePart::P1)?;
    after.push(Action::Sync)?;
    let edit = Edit::PutRow(without_escrow(alloc, row));
    let commit = commit_edit(alloc, settings, &edit)?;
    Ok(Planned { commit, after })
}
