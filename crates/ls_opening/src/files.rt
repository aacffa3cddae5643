//! What the files of a part hold, on any board.
ghost use Rattle.std.specs.Prelude.{◌≡◌, [], IfOk, unwrap_or};
ghost use Rattle.ls_board.specs.Acts.{Sight};
ghost use Rattle.ls_board.specs.Effect.{file_at};
ghost use Rattle.ls_formats.specs.PartNames.{part_name_text};
ghost use Rattle.ls_reading.specs.Reading.{Sees};

use ls_board::{Board, BoardFault};
use ls_bytes::{Bytes, Memory, Name};
use ls_formats::{FileName, PartName};
use ls_reading::read_file;
use std::alloc::Global;

/// The text of a file's name.
pub fn part_text(alloc: Global, name: &PartName) -> Result<Name, Memory>
    ensures named { IfOk result (λ text. text ≡ part_name_text name.now) }
{
    let text = FileName::Protector(*name).print(alloc)?;
    match Name::of(alloc, text.as_slice()) {
        Ok(name) => Ok(name),
        Err(_) => Err(Memory),
    }
}

/// What the file of a part holds, if it is there. It makes the room for its one call.
pub fn part_file<B: Board>(
    alloc: Global,
    board: &mut B,
    name: &PartName,
) -> Result<Option<Bytes>, BoardFault>
    ensures sees { Sees (λ w. file_at w (part_name_text name.now))
        (B.sight board.old) result (B.sight board.new) }
{
    let text = part_text(alloc, name)?;
    read_file(alloc, board, text)
}

/// The bytes that were read of a file. One that isn't there has none.
pub(crate) fn bytes_in(file: &Option<Bytes>) -> &[u8]
    ensures same { result.now ≡ unwrap_or file.now [] }
{
    match file {
        None => &[],
        Some(bytes) => bytes.as_slice(),
    }
}
