//! What is checked of one file.
ghost use Rattle.std.specs.Prelude.{◌≡◌, [], ℕ, unwrap_or};
ghost use Rattle.ls_record.specs.declared.row.UserRow.{UserRow as Row};
ghost use Rattle.ls_record.specs.Rows.{has};
ghost use Rattle.ls_formats.specs.declared.part.FilePart.TheVariants as parts;
ghost use Rattle.ls_standing.specs.Opening.{first_failing, part_checks, has_handle_length, file_fault, is_new_slot, Beside as BesideFile};

use crate::files::bytes_in;
use crate::number::byte_at;
use crate::place::{first_of, unless_byte, unless_id, unless_right};
use byteorder::{BigEndian, ByteOrder};
use ls_bytes::{Bytes, SlotList};
use ls_formats::{FilePart, PartName};
use ls_record::UserRow;
use ls_sealing::format_fault;
use std::marker::Model;

/// What a file is checked against.
#[derive(Drop)]
pub struct Beside {
    /// How many slots the board has.
    pub slots: u32,
    /// The slots that earlier files name.
    pub earlier: SlotList,
    /// The first byte of the blob of the user's credential, 0 where there is none.
    pub version: u8,
}

impl Model for Beside {
    ghost use Rattle.ls_standing.specs.Opening.{Beside as BesideFile};

    ghost Value = { BesideFile };

    ghost view = { λ b. record { slots = b.slots; earlier = b.earlier; version = b.version } };
}

// ---- the checks beside the format

/// The kind of a blob is that of its protector, and a token's version is that of the credential.
fn spblob_fault(beside: &Beside, row: &UserRow, id: u64, bytes: &[u8]) -> Option<u32>
    ensures same { result ≡ first_failing bytes.now
        (part_checks parts.SpBlob beside.now row.now id bytes.now) }
{
    let credential = id == row.protector;
    let version = credential || byte_at(bytes, 0) == beside.version;
    first_of(
        unless_byte(bytes, 1, if credential { 0 } else { 1 }),
        first_of(unless_right(bytes, 0, 1, version), None),
    )
}

/// Whether the length of a handle is that of one exactly without Weaver.
fn has_handle_length(slots: u32, length: u8) -> bool
    ensures same { result ≡ has_handle_length slots length }
{
    if slots > 0 {
        length != 49
    } else {
        length == 49
    }
}

/// The kind is the row's; there is a handle exactly without Weaver, and it has the version 1 and
/// the protector's id.
fn pwd_fault(beside: &Beside, row: &UserRow, id: u64, bytes: &[u8]) -> Option<u32>
    ensures same { result ≡ first_failing bytes.now
        (part_checks parts.Pwd beside.now row.now id bytes.now) }
{
    let length = has_handle_length(beside.slots, byte_at(bytes, 20));
    let of_handle = first_of(
        unless_byte(bytes, 21, 1),
        first_of(unless_id(bytes, 22, id), None),
    );
    first_of(
        unless_byte(bytes, 0, row.kind.code()),
        first_of(unless_right(bytes, 20, 1, length), of_handle),
    )
}

/// The length is the sealed one exactly with Weaver.
fn secdis_fault(beside: &Beside, bytes: &[u8]) -> Option<u32>
    ensures same { (row : Row) (id : ℕ) → result ≡ first_failing bytes.now
        (part_checks parts.Secdis beside.now row id bytes.now) }
{
    let size = if beside.slots > 0 { 16_412 } else { 16_384 };
    let length = bytes.len();
    if length == size {
        None
    } else {
        Some(length.min(size) as u32)
    }
}

fn has(slots: &[u32], slot: u32) -> bool
    ensures same { result ≡ has slots.now slot }
{
    slots.iter().any(|s| *s == slot)
}

/// Whether the slot is one of the board's, and no earlier file names it.
fn is_new_slot(beside: &Beside, slot: u32) -> bool
    ensures same { result ≡ is_new_slot beside.now slot }
{
    slot < beside.slots && !has(beside.earlier.as_slice(), slot)
}

/// The slot is one of the board's, and no earlier file names it.
fn weaver_fault(beside: &Beside, bytes: &[u8]) -> Option<u32>
    ensures same { (row : Row) (id : ℕ) → result ≡ first_failing bytes.now
        (part_checks parts.Weaver beside.now row id bytes.now) }
{
    if bytes.len() < 5 || is_new_slot(beside, BigEndian::read_u32(&bytes[1..])) {
        None
    } else {
        Some(1)
    }
}

/// The handle has the version 1 and the secure id.
fn handle_fault(row: &UserRow, bytes: &[u8]) -> Option<u32>
    ensures same { (beside : BesideFile) (id : ℕ) → result ≡ first_failing bytes.now
        (part_checks parts.Handle beside row.now id bytes.now) }
{
    first_of(
        unless_byte(bytes, 0, 1),
        first_of(unless_id(bytes, 1, row.secure), None),
    )
}

/// The first place at which a check of a file fails.
fn check_fault(beside: &Beside, row: &UserRow, name: &PartName, bytes: &[u8]) -> Option<u32>
    ensures same { result ≡ first_failing bytes.now
        (part_checks name.now.part beside.now row.now name.now.id bytes.now) }
{
    let id = name.id;
    match name.part {
        FilePart::SpBlob => spblob_fault(beside, row, id, bytes),
        FilePart::Pwd => pwd_fault(beside, row, id, bytes),
        FilePart::Secdis => secdis_fault(beside, bytes),
        FilePart::Weaver => weaver_fault(beside, bytes),
        FilePart::Handle => handle_fault(row, bytes),
        FilePart::Metrics | FilePart::E0 | FilePart::P1 | FilePart::Resume => None,
    }
}

/// The first place, from 0, at which a file with these bytes, which a row names, is at fault.
pub fn bytes_fault(beside: &Beside, row: &UserRow, name: &PartName, bytes: &[u8]) -> Option<u32>
    ensures same { result ≡ file_fault beside.now row.now name.now bytes.now }
{
    let format = format_fault(name.part, bytes);
    first_of(format, check_fault(beside, row, name, bytes))
}

/// The first place, from 0, at which a file that a row names is at fault, by what was read of it.
/// A file that isn't there is checked as an empty one.
pub fn file_fault(
    beside: &Beside,
    row: &UserRow,
    name: &PartName,
    file: &Option<Bytes>,
) -> Option<u32>
    ensures same { result ≡ file_fault beside.now row.now name.now (unwrap_or file.now []) }
{
    bytes_fault(beside, row, name, bytes_in(file))
}
