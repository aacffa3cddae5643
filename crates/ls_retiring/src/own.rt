//! The plans that put and remove the files of a user itself.
ghost use Rattle.std.specs.Prelude.{◌≡◌, ◌∷◌, [], true, IfOk};
ghost use Rattle.ls_formats.specs.PartNames.{is_of_user};
ghost use Rattle.ls_formats.specs.declared.part.FilePart.TheVariants.{E0, P1};
ghost use Rattle.ls_naming.specs.Named.{user_parts};
ghost use Rattle.ls_retiring.specs.Retiring.{own_put, own_removes};

use crate::files::{push_put, push_remove};
use ls_arming::Arming;
use ls_board::Plan;
use ls_bytes::{Bytes, Memory};
use ls_formats::{FilePart, PartName};
use ls_naming::{has_secure, is_armed};
use ls_record::UserRow;
use std::alloc::Global;

/// The name of a user's own file.
fn own_name(user: u32, part: FilePart) -> PartName
    requires part { is_of_user part ≡ true }
    ensures named { result ≡ record { user = user; id = 0; part = part } }
{
    PartName { user, id: 0, part }
}

/// The plan that puts one file of a user itself.
pub fn put_own_plan(alloc: Global, user: u32, part: FilePart, bytes: Bytes) -> Result<Plan, Memory>
    requires part { is_of_user part ≡ true }
    ensures puts { IfOk result (λ plan. plan ≡ own_put user part bytes ∷ []) }
{
    let mut plan = Plan::new(alloc);
    push_put(alloc, &mut plan, &own_name(user, part), bytes)?;
    Ok(plan)
}

/// The plan that puts the two files of a user who may have tokens.
pub fn put_escrow_plan(alloc: Global, user: u32, e0: Bytes, p1: Bytes) -> Result<Plan, Memory>
    ensures puts { IfOk result (λ plan. plan ≡ own_put user E0 e0 ∷ own_put user P1 p1 ∷ []) }
{
    let mut plan = put_own_plan(alloc, user, FilePart::E0, e0)?;
    push_put(alloc, &mut plan, &own_name(user, FilePart::P1), p1)?;
    Ok(plan)
}

/// The plan that removes the files of a user itself that its row and the arming name, in their
/// order, and nothing else.
pub fn remove_own_plan(alloc: Global, armed: &Option<Arming>, row: &UserRow) -> Result<Plan, Memory>
    ensures removes { IfOk result (λ plan.
        plan ≡ own_removes row.now.user (user_parts armed.now row.now)) }
{
    let user = row.user;
    let mut plan = Plan::new(alloc);
    push_remove(
        alloc,
        &mut plan,
        has_secure(row),
        &own_name(user, FilePart::Handle),
    )?;
    push_remove(alloc, &mut plan, row.escrow, &own_name(user, FilePart::E0))?;
    push_remove(alloc, &mut plan, row.escrow, &own_name(user, FilePart::P1))?;
    push_remove(
        alloc,
        &mut plan,
        is_armed(armed, user),
        &own_name(user, FilePart::Resume),
    )?;
    Ok(plan)
}
