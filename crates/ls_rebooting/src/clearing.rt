//! The change that ends an arming.
ghost use Rattle.std.specs.Prelude.{◌≡◌, ◌≢◌, ◌++◌, IfOk, OnOk, Err};
ghost use Rattle.ls_formats.specs.PartNames.{part_name_text};
ghost use Rattle.ls_edits.specs.Arming.{resume_of};
ghost use Rattle.ls_naming.specs.Current.{last_sequence};
ghost use Rattle.ls_rebooting.specs.Clearing.{ClearsArming, clearing, removals};

use ls_board::{Action, Plan};
use ls_bytes::{Memory, Name};
use ls_change::Work;
use ls_formats::{FileName, FilePart, PartName};
use ls_record::Edit;
use ls_settings::{PrepareFault, Settings};
use std::alloc::Global;

/// The name of a user's `resume` file.
fn resume_name(alloc: Global, user: u32) -> Result<Name, Memory>
    ensures named { IfOk result (λ text. text ≡ part_name_text (resume_of user)) }
{
    let part = FilePart::Resume;
    let text = FileName::Protector(PartName { user, id: 0, part }).print(alloc)?;
    // The text is a name: only memory can be wanting.
    match Name::of(alloc, text.as_slice()) {
        Ok(name) => Ok(name),
        Err(_) => Err(Memory),
    }
}

/// Removes the `resume` file of each of these users.
fn push_removals(alloc: Global, plan: &mut Plan, users: &[u32]) -> Result<(), Memory>
    ensures pushed { OnOk result (plan.new ≡ plan.old ++ removals users.now) }
{
    match users {
        [] => Ok(()),
        [user, rest @ ..] => {
            let name = resume_name(alloc, *user)?;
            plan.push(Action::Remove { name })?;
            push_removals(alloc, plan, rest)
        }
    }
}

/// The plan that takes away the key of alias 0 and the files of an arming of these users, up to the
/// disk.
fn clearing_plan(alloc: Global, users: &[u32]) -> Result<Plan, Memory>
    ensures clears { IfOk result (λ plan. plan ≡ clearing users.now) }
{
    let mut plan = Plan::new(alloc);
    plan.push(Action::KeyDrop { alias: 0 })?;
    push_removals(alloc, &mut plan, users)?;
    plan.push(Action::Sync)?;
    Ok(plan)
}

/// The change that ends an arming of these users: it commits the record without the arming, and
/// takes away what the arming had beside the cell. `Worn` comes exactly at the last sequence number.
pub(crate) fn clear_work(
    alloc: Global,
    settings: &Settings,
    users: &[u32],
) -> Result<Work, PrepareFault>
    ensures clears { IfOk result (ClearsArming settings.now users.now) }
    ensures worn { (result ≡ Err PrepareFault.Worn)
        → (settings.now.settled.sequence ≡ last_sequence) }
    ensures kept { IfOk result (λ work. settings.now.settled.sequence ≢ last_sequence) }
{
    let after = clearing_plan(alloc, users)?;
    let next = settings.record().changed(alloc, &Edit::ClearArmed)?;
    let commit = settings.prepare(alloc, next)?;
    Ok(Work {
        before: Plan::new(alloc),
        commit,
        after,
    })
}
