//! Going over the files that a record names, as far as the first one at fault.
ghost use Rattle.std.specs.Prelude.{◌≡◌, IfOk, None};
ghost use Rattle.std.specs.List.{AllByRecursion};
ghost use Rattle.ls_board.specs.Acts.{Sight};
ghost use Rattle.ls_record.specs.Rows.{IsRow};
ghost use Rattle.ls_reading.specs.Reading.{Sees};
ghost use Rattle.ls_standing.specs.Opening.{version_in};
ghost use Rattle.ls_opening.specs.Walking.{foreign_at, judged, passed, passed_files, versioned, passed_row, passed_rows};

use crate::checks::{Beside, bytes_fault};
use crate::files::{bytes_in, part_file};
use crate::foreign::Foreign;
use crate::number::blob_version;
use crate::slots::add_slot;
use ls_arming::Arming;
use ls_board::{Board, BoardFault};
use ls_bytes::Memory;
use ls_formats::{FilePart, PartName};
use ls_naming::row_files;
use ls_record::UserRow;
use std::alloc::Global;
use std::marker::Model;

/// What was met so far: what the next file is checked against, and the first file at fault.
#[derive(Drop)]
pub(crate) struct Walk {
    pub beside: Beside,
    pub foreign: Option<Foreign>,
}

impl Model for Walk {
    ghost use Rattle.ls_opening.specs.Walking.{Walked};

    ghost Value = { Walked };

    ghost view = { λ k. record { beside = k.beside; foreign = k.foreign } };
}

/// The file at fault, where it is at fault at a place.
fn foreign_at(name: &PartName, fault: Option<u32>) -> Option<Foreign>
    ensures same { result ≡ foreign_at name.now fault }
{
    match fault {
        None => None,
        Some(at) => Some(Foreign { name: *name, at }),
    }
}

/// Judges a file by its bytes, and names its slot.
fn judge(row: &UserRow, name: &PartName, bytes: &[u8], walk: Walk) -> Result<Walk, Memory>
    ensures judged { IfOk result (λ next. next ≡ judged row.now name.now walk.beside bytes.now) }
{
    let mut walk = walk;
    walk.foreign = foreign_at(name, bytes_fault(&walk.beside, row, name, bytes));
    add_slot(&mut walk.beside.earlier, name.part, bytes)?;
    Ok(walk)
}

/// Passes a file: names its slot, and tells where it is at fault.
fn pass_file<B: Board>(
    alloc: Global,
    board: &mut B,
    row: &UserRow,
    name: &PartName,
    walk: Walk,
) -> Result<Walk, BoardFault>
    ensures sees { Sees (passed row.now name.now walk.beside walk.foreign)
        (B.sight board.old) result (B.sight board.new) }
{
    if walk.foreign.is_some() {
        return Ok(walk);
    }
    let file = part_file(alloc, board, name)?;
    match judge(row, name, bytes_in(&file), walk) {
        Ok(walk) => Ok(walk),
        Err(_) => Err(BoardFault::Memory),
    }
}

/// Passes these files of a row, in order.
fn pass_files<B: Board>(
    alloc: Global,
    board: &mut B,
    row: &UserRow,
    names: &[PartName],
    walk: Walk,
) -> Result<Walk, BoardFault>
    ensures sees { Sees (passed_files row.now names.now walk)
        (B.sight board.old) result (B.sight board.new) }
{
    match names {
        [] => Ok(walk),
        [name, rest @ ..] => {
            let walk = pass_file(alloc, board, row, name, walk)?;
            pass_files(alloc, board, row, rest, walk)
        }
    }
}

/// The first byte of the blob of the row's credential, 0 where there is none.
fn version_of<B: Board>(alloc: Global, board: &mut B, row: &UserRow) -> Result<u8, BoardFault>
    requires row { IsRow row.now }
    ensures sees { Sees (λ w. version_in w row.now)
        (B.sight board.old) result (B.sight board.new) }
{
    let name = PartName {
        user: row.user,
        id: row.protector,
        part: FilePart::SpBlob,
    };
    let file = part_file(alloc, board, &name)?;
    Ok(blob_version(bytes_in(&file)))
}

/// Checks what follows against the version of the row's credential.
fn with_version<B: Board>(
    alloc: Global,
    board: &mut B,
    row: &UserRow,
    walk: Walk,
) -> Result<Walk, BoardFault>
    requires row { IsRow row.now }
    ensures sees { Sees (versioned row.now walk.beside walk.foreign)
        (B.sight board.old) result (B.sight board.new) }
{
    if walk.foreign.is_some() {
        return Ok(walk);
    }
    let mut walk = walk;
    walk.beside.version = version_of(alloc, board, row)?;
    Ok(walk)
}

/// Passes the files that a row names.
fn pass_row<B: Board>(
    alloc: Global,
    board: &mut B,
    weaver: bool,
    armed: &Option<Arming>,
    row: &UserRow,
    walk: Walk,
) -> Result<Walk, BoardFault>
    requires row { IsRow row.now }
    ensures sees { Sees (passed_row weaver armed.now row.now walk)
        (B.sight board.old) result (B.sight board.new) }
{
    let names = row_files(alloc, weaver, armed, row)?;
    let walk = with_version(alloc, board, row, walk)?;
    pass_files(alloc, board, row, names.as_slice(), walk)
}

/// Passes the files that these rows name.
pub(crate) fn pass_rows<B: Board>(
    alloc: Global,
    board: &mut B,
    weaver: bool,
    armed: &Option<Arming>,
    rows: &[UserRow],
    walk: Walk,
) -> Result<Walk, BoardFault>
    requires rows { AllByRecursion IsRow rows.now }
    ensures sees { Sees (passed_rows weaver armed.now rows.now walk)
        (B.sight board.old) result (B.sight board.new) }
{
    match rows {
        [] => Ok(walk),
        [row, rest @ ..] => {
            let walk = pass_row(alloc, board, weaver, armed, row, walk)?;
            pass_rows(alloc, board, weaver, armed, rest, walk)
        }
    }
}
