//! Going over the files that a record names, as far as the first one at fault.
ghost use Rattle.std.specs.Prelude.{◌≡◌, None, map, length, IfOk, OnOk};
ghost use Rattle.std.specs.List.{AllByRecursion};
ghost use Rattle.ls_record.specs.Rows.{IsRow};
ghost use Rattle.ls_naming.specs.Named.{row_files};
ghost use Rattle.ls_standing.specs.Opening.{content_at, version_in, files_of_rows};
ghost use Rattle.ls_sealing.specs.Protectors.{has_weaver};
ghost use Rattle.ls_checker.specs.Walking.{walked, passed, walked_by, foreign_at};

use crate::files::part_file;
use ls_arming::Arming;
use ls_board::World;
use ls_bytes::{Bytes, Memory};
use ls_formats::{FilePart, PartName};
use ls_naming::row_files;
use ls_opening::{Beside, Foreign, add_slot, blob_version, bytes_fault};
use ls_record::UserRow;
use std::alloc::Global;
use std::marker::Model;

/// What was met so far: what the next file is checked against, and the first file at fault.
#[derive(Drop)]
pub(crate) struct Walk {
    pub beside: Beside,
    pub foreign: Option<Foreign>,
}

/// What a file holds. One that isn't there holds nothing.
fn content(alloc: Global, world: &World, name: &PartName) -> Result<Bytes, Memory>
    ensures same { IfOk result (λ bytes. bytes ≡ content_at world.now name.now) }
{
    match part_file(alloc, world, name)? {
        None => Bytes::of(alloc, &[]),
        Some(bytes) => Ok(bytes),
    }
}

/// The first byte of the blob of the row's credential.
fn version_of(alloc: Global, world: &World, row: &UserRow) -> Result<u8, Memory>
    requires { IsRow row.now }
    ensures same { IfOk result (λ version. version ≡ version_in world.now row.now) }
{
    let name = PartName {
        user: row.user,
        id: row.protector,
        part: FilePart::SpBlob,
    };
    let bytes = content(alloc, world, &name)?;
    Ok(blob_version(bytes.as_slice()))
}

/// Passes a file: names its slot, and tells where it is at fault.
fn pass_file(
    alloc: Global,
    world: &World,
    row: &UserRow,
    name: &PartName,
    walk: &mut Walk,
) -> Result<(), Memory>
    requires slots { walk.old.beside.slots ≡ length world.now.slots }
    requires version { walk.old.beside.version ≡ version_in world.now row.now }
    ensures slots { OnOk result (walk.new.beside.slots ≡ walk.old.beside.slots) }
    ensures version { OnOk result (walk.new.beside.version ≡ walk.old.beside.version) }
    ensures passed { OnOk result (walked_by walk.new
        ≡ passed world.now (row.now, name.now) walk.old.beside.earlier walk.old.foreign) }
{
    if walk.foreign.is_some() {
        return Ok(());
    }
    let bytes = content(alloc, world, name)?;
    let bytes = bytes.as_slice();
    let fault = bytes_fault(&walk.beside, row, name, bytes);
    walk.foreign = foreign_at(name, fault);
    add_slot(&mut walk.beside.earlier, name.part, bytes)
}

/// The file at fault, where it is at fault at a place.
fn foreign_at(name: &PartName, fault: Option<u32>) -> Option<Foreign>
    ensures same { result ≡ foreign_at name.now fault }
{
    match fault {
        None => None,
        Some(at) => Some(Foreign { name: *name, at }),
    }
}

/// Passes these files of a row, in order.
fn pass_files(
    alloc: Global,
    world: &World,
    row: &UserRow,
    names: &[PartName],
    walk: &mut Walk,
) -> Result<(), Memory>
    requires slots { walk.old.beside.slots ≡ length world.now.slots }
    requires version { walk.old.beside.version ≡ version_in world.now row.now }
    ensures slots { OnOk result (walk.new.beside.slots ≡ walk.old.beside.slots) }
    ensures passed { OnOk result (walked_by walk.new
        ≡ walked world.now (walked_by walk.old) (map (λ name. (row.now, name)) names.now)) }
{
    match names {
        [] => Ok(()),
        [name, rest @ ..] => {
            pass_file(alloc, world, row, name, walk)?;
            pass_files(alloc, world, row, rest, walk)
        }
    }
}

/// Passes the files that a row names.
fn pass_row(
    alloc: Global,
    world: &World,
    armed: &Option<Arming>,
    row: &UserRow,
    walk: &mut Walk,
) -> Result<(), Memory>
    requires row { IsRow row.now }
    requires slots { walk.old.beside.slots ≡ length world.now.slots }
    ensures slots { OnOk result (walk.new.beside.slots ≡ walk.old.beside.slots) }
    ensures passed { OnOk result (walked_by walk.new ≡ walked world.now (walked_by walk.old)
        (map (λ name. (row.now, name)) (row_files (has_weaver world.now) armed.now row.now))) }
{
    walk.beside.version = version_of(alloc, world, row)?;
    let names = row_files(alloc, world.slots.len() > 0, armed, row)?;
    pass_files(alloc, world, row, names.as_slice(), walk)
}

/// Passes the files that these rows name.
pub(crate) fn pass_rows(
    alloc: Global,
    world: &World,
    armed: &Option<Arming>,
    rows: &[UserRow],
    walk: &mut Walk,
) -> Result<(), Memory>
    requires rows { AllByRecursion IsRow rows.now }
    requires slots { walk.old.beside.slots ≡ length world.now.slots }
    ensures passed { OnOk result (walked_by walk.new ≡ walked world.now (walked_by walk.old)
        (files_of_rows (has_weaver world.now) armed.now rows.now)) }
{
    match rows {
        [] => Ok(()),
        [row, rest @ ..] => {
            pass_row(alloc, world, armed, row, walk)?;
            pass_rows(alloc, world, armed, rest, walk)
        }
    }
}
