//! What a world's files hold.
ghost use Rattle.std.specs.Prelude.{◌≡◌, IfOk};
ghost use Rattle.ls_board.specs.Effect.{file_at};
ghost use Rattle.ls_formats.specs.PartNames.{part_name_text};

use ls_board::World;
use ls_bytes::{Bytes, Memory};
use ls_formats::{FileName, PartName};
use std::alloc::Global;

/// What the file of this name holds, if it is there.
pub(crate) fn file_of(alloc: Global, world: &World, name: &[u8]) -> Result<Option<Bytes>, Memory>
    ensures same { IfOk result (λ file. file ≡ file_at world.now name.now) }
{
    match world.files.content(name) {
        None => Ok(None),
        Some(bytes) => Ok(Some(Bytes::of(alloc, bytes)?)),
    }
}

/// What the file of a part holds, if it is there.
pub(crate) fn part_file(
    alloc: Global,
    world: &World,
    name: &PartName,
) -> Result<Option<Bytes>, Memory>
    ensures same { IfOk result (λ file. file ≡ file_at world.now (part_name_text name.now)) }
{
    let text = FileName::Protector(*name).print(alloc)?;
    file_of(alloc, world, text.as_slice())
}
