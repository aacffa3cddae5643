//! Files that are removed or put by their names.
ghost use Rattle.std.specs.Prelude.{◌≡◌, ◌++◌, ◌∷◌, [], IfOk, OnOk};
ghost use Rattle.ls_formats.specs.PartNames.{part_name_text};
ghost use Rattle.ls_board.specs.declared.action.Action.TheVariants.{Put, Remove};
ghost use Rattle.ls_naming.specs.Named.{only_if};

use ls_board::{Action, Plan};
use ls_bytes::{Bytes, Memory, Name};
use ls_formats::{FileName, PartName};
use std::alloc::Global;

/// The name of a file of a user or a protector.
fn name_of(alloc: Global, name: &PartName) -> Result<Name, Memory>
    ensures named { IfOk result (λ text. text ≡ part_name_text name.now) }
{
    let text = FileName::Protector(*name).print(alloc)?;
    // The text is a name: only memory can be wanting.
    match Name::of(alloc, text.as_slice()) {
        Ok(name) => Ok(name),
        Err(_) => Err(Memory),
    }
}

/// Puts a file.
pub(crate) fn push_put(
    alloc: Global,
    plan: &mut Plan,
    name: &PartName,
    bytes: Bytes,
) -> Result<(), Memory>
    ensures pushed { OnOk result
        (plan.new ≡ plan.old ++ Put (part_name_text name.now) bytes ∷ []) }
{
    let name = name_of(alloc, name)?;
    plan.push(Action::Put { name, bytes })
}

/// Removes a file, where the test holds.
pub(crate) fn push_remove(
    alloc: Global,
    plan: &mut Plan,
    test: bool,
    name: &PartName,
) -> Result<(), Memory>
    ensures pushed { OnOk result
        (plan.new ≡ plan.old ++ only_if test (Remove (part_name_text name.now) ∷ [])) }
{
    if !test {
        return Ok(());
    }
    let name = name_of(alloc, name)?;
    plan.push(Action::Remove { name })
}
