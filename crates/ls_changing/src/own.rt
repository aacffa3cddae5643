//! The handle of a secure id that comes, and what is written and taken away beside protectors.
ghost use Rattle.std.specs.Prelude.{◌≡◌, IfOk};
ghost use Rattle.ls_changing.specs.Replacing.{comes, goes, handle_name, enrolling, forgetting};

use ls_board::{Action, Plan};
use ls_bytes::{Bytes, Memory, Name};
use ls_formats::{FileName, FilePart, PartName};
use ls_record::UserRow;
use std::alloc::Global;

/// Whether there is a secure id, and there was none.
pub(crate) fn comes(old: u64, new: u64) -> bool
    ensures same { result ≡ comes old new }
{
    old == 0 && new != 0
}

/// Whether there was a secure id, and there is none.
fn goes(old: u64, new: u64) -> bool
    ensures same { result ≡ goes old new }
{
    old != 0 && new == 0
}

/// The name of a user's `handle` file.
fn handle_name(alloc: Global, user: u32) -> Result<Name, Memory>
    ensures same { IfOk result (λ name. name ≡ handle_name user) }
{
    let name = PartName {
        user,
        id: 0,
        part: FilePart::Handle,
    };
    let text = FileName::Protector(name).print(alloc)?;
    // The text is a name: only memory can be wanting.
    match Name::of(alloc, text.as_slice()) {
        Ok(name) => Ok(name),
        Err(_) => Err(Memory),
    }
}

/// The plan that enrolls a secure id that comes, and puts its handle.
pub(crate) fn enrolling_plan(
    alloc: Global,
    row: &UserRow,
    secure: u64,
    handle: &[u8; 49],
) -> Result<Plan, Memory>
    ensures same { IfOk result (λ plan. plan ≡ enrolling row.now secure handle.now) }
{
    let mut plan = Plan::new(alloc);
    if comes(row.secure, secure) {
        plan.push(Action::GkEnroll { sid: secure })?;
        plan.push(Action::Put {
            name: handle_name(alloc, row.user)?,
            bytes: Bytes::of(alloc, handle)?,
        })?;
    }
    Ok(plan)
}

/// The plan that forgets a secure id that goes, and removes its handle; and the sync.
pub(crate) fn forgetting_plan(alloc: Global, row: &UserRow, secure: u64) -> Result<Plan, Memory>
    ensures same { IfOk result (λ plan. plan ≡ forgetting row.now secure) }
{
    let mut plan = Plan::new(alloc);
    if goes(row.secure, secure) {
        plan.push(Action::GkForget { sid: row.secure })?;
        plan.push(Action::Remove {
            name: handle_name(alloc, row.user)?,
        })?;
    }
    plan.push(Action::Sync)?;
    Ok(plan)
}
