//! Files of a user itself that are removed.
ghost use Rattle.std.specs.Prelude.{◌≡◌, ◌++◌, ◌∷◌, [], true, IfOk, OnOk};
ghost use Rattle.ls_board.specs.declared.action.Action.TheVariants.{Remove};
ghost use Rattle.ls_formats.specs.PartNames.{is_of_user, part_name_text};
ghost use Rattle.ls_retiring.specs.Retiring.{own_name};

use ls_board::{Action, Plan};
use ls_bytes::{Memory, Name};
use ls_formats::{FileName, FilePart, PartName};
use std::alloc::Global;

/// The name of a file of a user or a protector.
fn name_of(alloc: Global, name: &PartName) -> Result<Name, Memory>
    ensures named { IfOk result (λ text. text ≡ part_name_text name.now) }
{
    let text = FileName::Protector(*name).print(alloc)?;
    // The text is a name: only memory can be wanting.
    match Name::of(alloc, text.as_slice()) {
        Ok(name) => Ok(name),
        Err(_) => Err(Memory),
    }
}

/// Removes a file of a user itself.
pub(crate) fn push_remove(
    alloc: Global,
    plan: &mut Plan,
    user: u32,
    part: FilePart,
) -> Result<(), Memory>
    requires part { is_of_user part ≡ true }
    ensures pushed { OnOk result (plan.new ≡ plan.old ++ Remove (own_name user part) ∷ []) }
{
    let name = name_of(alloc, &PartName { user, id: 0, part })?;
    plan.push(Action::Remove { name })
}
