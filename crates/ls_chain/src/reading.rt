//! Reading the files of a chain.
ghost use Rattle.std.specs.Prelude.{◌≡◌, Ok, None, IsTrue, IfOk};
ghost use Rattle.ls_formats.specs.PartNames.{part_name_text};
ghost use Rattle.ls_board.specs.Acts.{Sight};
ghost use Rattle.ls_board.specs.Effect.{file_at};
ghost use Rattle.ls_sealing.specs.PartFormats.{format_fault};
ghost use Rattle.ls_chain.specs.Calling.{BeginsByReading};
ghost use Rattle.ls_chain.specs.Looking.{Looks, Gives};
ghost use Rattle.ls_chain.specs.Trying.{OnAnswer};
ghost use Rattle.ls_chain.specs.Links.{sound_file};

use crate::fault::{ChainFault, Spot};
use ls_board::{Action, Answer, Board};
use ls_bytes::{Bytes, Memory, Name};
use ls_formats::{FileName, FilePart, PartName};
use ls_sealing::format_fault;
use std::alloc::Global;

/// The name of a file.
fn name_of(alloc: Global, name: &PartName) -> Result<Name, Memory>
    ensures named { IfOk result (λ text. text ≡ part_name_text name.now) }
{
    let text = FileName::Protector(*name).print(alloc)?;
    match Name::of(alloc, text.as_slice()) {
        Ok(name) => Ok(name),
        Err(_) => Err(Memory),
    }
}

/// The file that was read.
fn file_in(answer: Answer, out: Vec<u8>) -> Option<Bytes>
    ensures absent { answer ≡ Answer.Absent → result ≡ None }
    ensures there { (answer ≡ Answer.Absent → ⊥) → result ≡ Some out.items }
{
    if answer == Answer::Absent {
        None
    } else {
        Some(Bytes::from(out))
    }
}

/// Reads a file by its action.
fn read_by<B: Board>(
    alloc: Global,
    board: &mut B,
    name: &PartName,
    read: &Action,
) -> Result<Option<Bytes>, ChainFault>
    requires reads { read.now ≡ Action.Read (part_name_text name.now) }
    ensures looks { Looks (λ w. Ok (file_at w (part_name_text name.now)))
        (B.sight board.old) result (B.sight board.new) }
    // Its first call met the world.
    ensures met { IsTrue (B.sight board.old).told
        → OnAnswer result (BeginsByReading (B.sight board.old) (B.sight board.new)) }
{
    board.ready(alloc, 1, 0)?;
    let mut out = Vec::new(alloc);
    let answer = board.act(read, &mut out)?;
    Ok(file_in(answer, out))
}

/// What a file holds, if it is there.
pub fn read_file<B: Board>(
    alloc: Global,
    board: &mut B,
    name: &PartName,
) -> Result<Option<Bytes>, ChainFault>
    ensures looks { Looks (λ w. Ok (file_at w (part_name_text name.now)))
        (B.sight board.old) result (B.sight board.new) }
    // Its first call met the world.
    ensures met { IsTrue (B.sight board.old).told
        → OnAnswer result (BeginsByReading (B.sight board.old) (B.sight board.new)) }
{
    let read = Action::Read {
        name: name_of(alloc, name)?,
    };
    read_by(alloc, board, name, &read)
}

// ---- formats

/// The bytes of a file, where it is there and in the format of its part.
fn sound(part: FilePart, file: Option<Bytes>) -> Result<Bytes, ChainFault>
    ensures gives { Gives (sound_file part file) result }
    ensures format { IfOk result (λ bytes. format_fault part bytes ≡ None) }
{
    let Some(bytes) = file else {
        return Err(ChainFault::Corrupt(Spot { part, at: 0 }));
    };
    match format_fault(part, bytes.as_slice()) {
        Some(at) => Err(ChainFault::Corrupt(Spot { part, at })),
        None => Ok(bytes),
    }
}

/// The bytes of a file, where it is there and in the format of its part; else it is at fault, at 0
/// where it isn't there.
pub fn sound_file<B: Board>(
    alloc: Global,
    board: &mut B,
    name: &PartName,
) -> Result<Bytes, ChainFault>
    ensures looks { Looks (λ w. sound_file name.now.part (file_at w (part_name_text name.now)))
        (B.sight board.old) result (B.sight board.new) }
    ensures format { IfOk result (λ bytes. format_fault name.now.part bytes ≡ None) }
    // Its first call met the world.
    ensures met { IsTrue (B.sight board.old).told
        → OnAnswer result (BeginsByReading (B.sight board.old) (B.sight board.new)) }
{
    let file = read_file(alloc, board, name)?;
    sound(name.part, file)
}
