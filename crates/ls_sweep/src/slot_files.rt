//! The slots that a record names, read from its files over a board.
ghost use Rattle.std.specs.Prelude.{◌≡◌, ◌++◌, [], IfOk, unwrap_or};
ghost use Rattle.std.specs.List.{AllByRecursion};
ghost use Rattle.ls_board.specs.Acts.{Sight};
ghost use Rattle.ls_board.specs.Effect.{file_at};
ghost use Rattle.ls_formats.specs.PartNames.{part_name_text};
ghost use Rattle.ls_naming.specs.Named.{row_files};
ghost use Rattle.ls_record.specs.Rows.{IsRow};
ghost use Rattle.ls_reading.specs.Reading.{Sees};
ghost use Rattle.ls_standing.specs.Opening.{content_at, slot_in};
ghost use Rattle.ls_sweep.specs.NamedSlots.{is_slot_part, slots_of, slots_of_rows, slots_named};

use ls_arming::Arming;
use ls_board::{Board, BoardFault};
use ls_bytes::{Bytes, Memory, Name, SlotList};
use ls_formats::{FileName, FilePart, PartName};
use ls_naming::row_files;
use ls_opening::add_slot;
use ls_reading::read_file;
use ls_record::{Record, UserRow};
use std::alloc::Global;

/// Whether files of this part name slots.
fn is_slot_part(part: FilePart) -> bool
    ensures same { result ≡ is_slot_part part }
{
    match part {
        FilePart::Weaver => true,
        FilePart::SpBlob
        | FilePart::Pwd
        | FilePart::Secdis
        | FilePart::Metrics
        | FilePart::Handle
        | FilePart::E0
        | FilePart::P1
        | FilePart::Resume => false,
    }
}

/// The name of a file.
fn name_of(alloc: Global, name: &PartName) -> Result<Name, Memory>
    ensures named { IfOk result (λ text. text ≡ part_name_text name.now) }
{
    let text = FileName::Protector(*name).print(alloc)?;
    match Name::of(alloc, text.as_slice()) {
        Ok(name) => Ok(name),
        Err(_) => Err(Memory),
    }
}

/// What the file of a part holds, if it is there.
fn part_file<B: Board>(
    alloc: Global,
    board: &mut B,
    name: &PartName,
) -> Result<Option<Bytes>, BoardFault>
    ensures sees { Sees (λ w. file_at w (part_name_text name.now))
        (B.sight board.old) result (B.sight board.new) }
{
    let text = name_of(alloc, name)?;
    read_file(alloc, board, text)
}

/// The slots, and behind them that which a file of this part names, if it names one.
fn with_slot(part: FilePart, file: &Option<Bytes>, slots: SlotList) -> Result<SlotList, Memory>
    ensures added { IfOk result (λ all. all ≡ slots ++ slot_in part (unwrap_or file.now [])) }
{
    let mut slots = slots;
    let bytes: &[u8] = match file {
        None => &[],
        Some(bytes) => bytes.as_slice(),
    };
    add_slot(&mut slots, part, bytes)?;
    Ok(slots)
}

/// Adds the slot that a file names, if it names one.
fn pass_file<B: Board>(
    alloc: Global,
    board: &mut B,
    name: &PartName,
    slots: SlotList,
) -> Result<SlotList, BoardFault>
    ensures sees { Sees (λ w. slots ++ slot_in name.now.part (content_at w name.now))
        (B.sight board.old) result (B.sight board.new) }
{
    if !is_slot_part(name.part) {
        return Ok(slots);
    }
    let file = part_file(alloc, board, name)?;
    match with_slot(name.part, &file, slots) {
        Ok(slots) => Ok(slots),
        Err(_) => Err(BoardFault::Memory),
    }
}

/// Adds the slots that these files name, in order.
fn pass_files<B: Board>(
    alloc: Global,
    board: &mut B,
    names: &[PartName],
    slots: SlotList,
) -> Result<SlotList, BoardFault>
    ensures sees { Sees (λ w. slots ++ slots_of w names.now)
        (B.sight board.old) result (B.sight board.new) }
{
    match names {
        [] => Ok(slots),
        [name, rest @ ..] => {
            let slots = pass_file(alloc, board, name, slots)?;
            pass_files(alloc, board, rest, slots)
        }
    }
}

/// Adds the slots that the files of a row name.
fn pass_row<B: Board>(
    alloc: Global,
    board: &mut B,
    weaver: bool,
    armed: &Option<Arming>,
    row: &UserRow,
    slots: SlotList,
) -> Result<SlotList, BoardFault>
    requires row { IsRow row.now }
    ensures sees { Sees (λ w. slots ++ slots_of w (row_files weaver armed.now row.now))
        (B.sight board.old) result (B.sight board.new) }
{
    let names = row_files(alloc, weaver, armed, row)?;
    pass_files(alloc, board, names.as_slice(), slots)
}

/// Adds the slots that the files of these rows name, in order.
fn pass_rows<B: Board>(
    alloc: Global,
    board: &mut B,
    weaver: bool,
    armed: &Option<Arming>,
    rows: &[UserRow],
    slots: SlotList,
) -> Result<SlotList, BoardFault>
    requires rows { AllByRecursion IsRow rows.now }
    ensures sees { Sees (λ w. slots ++ slots_of_rows w weaver armed.now rows.now)
        (B.sight board.old) result (B.sight board.new) }
{
    match rows {
        [] => Ok(slots),
        [row, rest @ ..] => {
            let slots = pass_row(alloc, board, weaver, armed, row, slots)?;
            pass_rows(alloc, board, weaver, armed, rest, slots)
        }
    }
}

/// The slots that a record names, in the order of its files. It reads each `weaver` file that the
/// record names, makes the room for that, and reads nothing else. A file that isn't there, or that
/// hasn't the form of a `weaver` file, names no slot.
pub fn named_slots<B: Board>(
    alloc: Global,
    board: &mut B,
    holder: &Record,
) -> Result<SlotList, BoardFault>
    ensures sees { Sees (λ w. slots_named w holder.now)
        (B.sight board.old) result (B.sight board.new) }
{
    let weaver = board.slots() > 0;
    let slots = pass_rows(
        alloc,
        board,
        weaver,
        &holder.armed,
        holder.users.as_slice(),
        SlotList::new(alloc),
    )?;
    Ok(slots)
}
