//! Whether a record names a slot, by the `weaver` files that it names.
ghost use Rattle.std.specs.Prelude.{◌≡◌, ◌↔◌, IsTrue, IfOk};
ghost use Rattle.std.specs.List.{list_any, AllByRecursion};
ghost use Rattle.ls_record.specs.Rows.{IsRow};
ghost use Rattle.ls_naming.specs.Named.{NamesSlot, row_files};
ghost use Rattle.ls_board.specs.Effect.{file_at};
ghost use Rattle.ls_sealing.specs.Protectors.{has_weaver};
ghost use Rattle.ls_checker.specs.SlotNames.{is_file_of, names_slot};

use crate::files::part_file;
use ls_arming::Arming;
use ls_board::World;
use ls_bytes::{Bytes, Memory};
use ls_formats::{FilePart, PartName, SlotFile};
use ls_naming::row_files;
use ls_record::{Record, UserRow};
use std::alloc::Global;

/// Whether it is the file of this slot.
fn is_file_of(alloc: Global, slot: u32, file: &Option<Bytes>) -> Result<bool, Memory>
    ensures same { IfOk result (λ is. is ≡ is_file_of slot file.now) }
{
    match file {
        None => Ok(false),
        Some(bytes) => {
            let text = SlotFile { slot }.print(alloc)?;
            Ok(bytes.as_slice() == text.as_slice())
        }
    }
}

/// Whether it is the name of a `weaver` file that names the slot.
fn names_slot(alloc: Global, world: &World, slot: u32, name: &PartName) -> Result<bool, Memory>
    ensures same { IfOk result (λ names. names ≡ names_slot world.now slot name.now) }
{
    match name.part {
        FilePart::Weaver => is_file_of(alloc, slot, &part_file(alloc, world, name)?),
        FilePart::SpBlob
        | FilePart::Pwd
        | FilePart::Secdis
        | FilePart::Metrics
        | FilePart::Handle
        | FilePart::E0
        | FilePart::P1
        | FilePart::Resume => Ok(false),
    }
}

/// Whether one of these files names the slot.
fn one_names_slot(
    alloc: Global,
    world: &World,
    slot: u32,
    names: &[PartName],
) -> Result<bool, Memory>
    ensures same { IfOk result (λ one. one ≡ list_any (names_slot world.now slot) names.now) }
{
    match names {
        [] => Ok(false),
        [name, rest @ ..] => {
            let first = names_slot(alloc, world, slot, name)?;
            Ok(first || one_names_slot(alloc, world, slot, rest)?)
        }
    }
}

/// Whether a file that a row names does.
fn row_names_slot(
    alloc: Global,
    world: &World,
    slot: u32,
    armed: &Option<Arming>,
    row: &UserRow,
) -> Result<bool, Memory>
    requires { IsRow row.now }
    ensures same { IfOk result (λ names. names ≡ list_any (names_slot world.now slot)
        (row_files (has_weaver world.now) armed.now row.now)) }
{
    let names = row_files(alloc, world.slots.len() > 0, armed, row)?;
    one_names_slot(alloc, world, slot, names.as_slice())
}

/// Whether a file that one of these rows names does.
fn one_row_names_slot(
    alloc: Global,
    world: &World,
    slot: u32,
    armed: &Option<Arming>,
    rows: &[UserRow],
) -> Result<bool, Memory>
    requires { AllByRecursion IsRow rows.now }
    ensures same { IfOk result (λ one. one
        ≡ list_any (λ row. list_any (names_slot world.now slot)
        (row_files (has_weaver world.now) armed.now row)) rows.now) }
{
    match rows {
        [] => Ok(false),
        [row, rest @ ..] => {
            let first = row_names_slot(alloc, world, slot, armed, row)?;
            Ok(first || one_row_names_slot(alloc, world, slot, armed, rest)?)
        }
    }
}

/// Whether the record names the slot.
#[tactic(auto, using(crate::proofs::SlotNameLemmas::slot_decided))]
pub(crate) fn names_slot_of(
    alloc: Global,
    world: &World,
    holder: &Record,
    slot: u32,
) -> Result<bool, Memory>
    ensures decided { IfOk result (λ named. IsTrue named
        ↔ NamesSlot (has_weaver world.now) holder.now (file_at world.now) slot) }
{
    one_row_names_slot(alloc, world, slot, &holder.armed, holder.users.as_slice())
}
