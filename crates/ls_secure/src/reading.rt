//! A secure file, read. What was read is printed again, and counts only where this is the file.
ghost use Rattle.std.specs.Prelude.{◌≡◌, ◌≤◌, ◌<◌, ◌^◌, ◌++◌, ◌↔◌, List, ℕ, Option, length, IfOk, IfSome, OnOk, IsTrue, MatchResult, Err};
ghost use Rattle.std.specs.List.{AllByRecursion, flat_map};
ghost use Rattle.std.specs.Ordering.{nat_cmp};
ghost use Rattle.ls_bytes.specs.Fields.{be32, be64};
ghost use Rattle.ls_board.specs.Order.{IsSorted, IsTable};
ghost use Rattle.ls_board.specs.declared.devices.Counter.{Counter as Counters};
ghost use Rattle.ls_weaver.specs.declared.slot.Slot.{Slot as Slots};
ghost use Rattle.ls_secure.specs.Held.{kept_of, image_of};
ghost use Rattle.ls_secure.specs.Secure.{Kept, Image, IsSlot, IsRecordRow, IsKeyRow, IsKept, slot_bytes, record_bytes, key_bytes, cell_bytes, slots_part, records_part, keys_part, body, front, spelling, IsFileOf};
ghost use Rattle.ls_secure.specs.Reading.{Gave, GaveBut};

use crate::devices::Devices;
use crate::printing::{digest_into, print_front};
use ls_board::{Counter, GkTable, IdTable, KeyTable};
use ls_bytes::{Memory, Reader, Short};
use ls_gatekeeper::Gatekeeper;
use ls_keys::{KeyStore, ResumeCell};
use ls_weaver::{Slot, Weaver};
use std::alloc::{AllocError, Global};

/// Why no devices were read.
#[derive(Clone, Copy, Debug, PartialEq, Eq)]
pub enum Misread {
    /// The bytes aren't a secure file.
    Foreign,
    /// There was no memory.
    Memory,
}

impl From<Memory> for Misread {
    ghost use Rattle.ls_secure.specs.declared.reading.Misread.TheVariants as misread;

    ghost from_gives = { λ _ e. e ≡ misread.Memory };

    fn from(_memory: Memory) -> Misread {
        Misread::Memory
    }
}

impl From<AllocError> for Misread {
    ghost use Rattle.ls_secure.specs.declared.reading.Misread.TheVariants as misread;

    ghost from_gives = { λ _ e. e ≡ misread.Memory };

    fn from(_error: AllocError) -> Misread {
        Misread::Memory
    }
}

impl From<Short> for Misread {
    fn from(_short: Short) -> Misread {
        Misread::Foreign
    }
}

fn number_32(reader: &mut Reader<'_>) -> Result<u32, Short>
    ensures gives { (n : ℕ) (rest : List ℕ) → n < 2 ^ 32 → reader.old.left ≡ be32 n ++ rest
        → Gave result reader.new.left n rest }
{
    reader.be32()
}

fn number_64(reader: &mut Reader<'_>) -> Result<u64, Short>
    ensures gives { (n : ℕ) (rest : List ℕ) → n < 2 ^ 64 → reader.old.left ≡ be64 n ++ rest
        → Gave result reader.new.left n rest }
{
    reader.be64()
}

fn array_16(reader: &mut Reader<'_>) -> Result<[u8; 16], Short>
    ensures gives { (field rest : List ℕ) → length field ≡ 16 → reader.old.left ≡ field ++ rest
        → Gave result reader.new.left field rest }
{
    let field = reader.bytes(16)?;
    let mut array = [0; 16];
    array.copy_from_slice(field);
    Ok(array)
}

fn array_32(reader: &mut Reader<'_>) -> Result<[u8; 32], Short>
    ensures gives { (field rest : List ℕ) → length field ≡ 32 → reader.old.left ≡ field ++ rest
        → Gave result reader.new.left field rest }
{
    let field = reader.bytes(32)?;
    let mut array = [0; 32];
    array.copy_from_slice(field);
    Ok(array)
}

fn slot(reader: &mut Reader<'_>) -> Result<Slot, Short>
    ensures gives { (s : Slots) (rest : List ℕ) → IsSlot s → reader.old.left ≡ slot_bytes s ++ rest
        → Gave result reader.new.left s rest }
{
    let key = array_16(reader)?;
    let value = array_16(reader)?;
    let fails = number_32(reader)?;
    let until = number_64(reader)?;
    Ok(Slot {
        key,
        value,
        fails,
        until,
    })
}

fn record(reader: &mut Reader<'_>) -> Result<(u64, Counter), Short>
    ensures gives { (r : ℕ × Counters) (rest : List ℕ) → IsRecordRow r
        → reader.old.left ≡ record_bytes r ++ rest → Gave result reader.new.left r rest }
{
    let sid = number_64(reader)?;
    let fails = number_32(reader)?;
    let until = number_64(reader)?;
    Ok((sid, Counter { fails, until }))
}

fn key(reader: &mut Reader<'_>) -> Result<(u64, [u8; 32]), Short>
    ensures gives { (r : ℕ × List ℕ) (rest : List ℕ) → IsKeyRow r
        → reader.old.left ≡ key_bytes r ++ rest → Gave result reader.new.left r rest }
{
    let alias = number_64(reader)?;
    let key = array_32(reader)?;
    Ok((alias, key))
}

/// So many slots.
fn slot_rows(alloc: Global, reader: &mut Reader<'_>, count: u32) -> Result<Weaver, Misread>
    ensures count { IfOk result (λ slots. length slots ≡ count) }
    ensures gives { (ys : List Slots) (rest : List ℕ) → length ys ≡ count
        → AllByRecursion IsSlot ys → reader.old.left ≡ flat_map slot_bytes ys ++ rest
        → GaveBut (λ slots. slots) result reader.new.left ys rest }
{
    let mut slots = Weaver::new(alloc, 0)?;
    for _ in 0..count {
        let slot = slot(reader)?;
        slots.push(slot)?;
    }
    Ok(slots)
}

/// So many records, by their ids.
fn record_rows(
    alloc: Global,
    reader: &mut Reader<'_>,
    count: u32,
) -> Result<IdTable<Counter>, Misread>
    ensures gives { (ys : List (ℕ × Counters)) (rest : List ℕ) → length ys ≡ count
        → AllByRecursion IsRecordRow ys → IsSorted nat_cmp ys
        → reader.old.left ≡ flat_map record_bytes ys ++ rest
        → GaveBut (λ table. table.rows) result reader.new.left ys rest }
{
    let mut rows = IdTable::new(alloc);
    for _ in 0..count {
        let row = record(reader)?;
        rows.reserve(1)?;
        rows.put(row.0, row.1);
    }
    Ok(rows)
}

/// So many keys, by their aliases.
fn key_rows(
    alloc: Global,
    reader: &mut Reader<'_>,
    count: u32,
) -> Result<IdTable<[u8; 32]>, Misread>
    ensures gives { (ys : List (ℕ × List ℕ)) (rest : List ℕ) → length ys ≡ count
        → AllByRecursion IsKeyRow ys → IsSorted nat_cmp ys
        → reader.old.left ≡ flat_map key_bytes ys ++ rest
        → GaveBut (λ table. table.rows) result reader.new.left ys rest }
{
    let mut rows = IdTable::new(alloc);
    for _ in 0..count {
        let row = key(reader)?;
        rows.reserve(1)?;
        rows.put(row.0, row.1);
    }
    Ok(rows)
}

/// At most 256 slots.
fn slots(alloc: Global, reader: &mut Reader<'_>) -> Result<Weaver, Misread>
    ensures few { IfOk result (λ slots. length slots ≤ 256) }
    ensures gives { (ys : List Slots) (rest : List ℕ) → length ys ≤ 256 → AllByRecursion IsSlot ys
        → reader.old.left ≡ slots_part ys ++ rest
        → GaveBut (λ slots. slots) result reader.new.left ys rest }
{
    let count = number_32(reader)?;
    if count > 256 {
        return Err(Misread::Foreign);
    }
    slot_rows(alloc, reader, count)
}

/// The Gatekeeper's records, by their ids.
fn records(alloc: Global, reader: &mut Reader<'_>) -> Result<GkTable, Misread>
    ensures gives { (ys : List (ℕ × Counters)) (rest : List ℕ) → IsTable nat_cmp ys
        → AllByRecursion IsRecordRow ys
        → reader.old.left ≡ records_part ys ++ rest
        → GaveBut (λ table. table) result reader.new.left ys rest }
{
    let count = number_32(reader)?;
    let rows = record_rows(alloc, reader, count)?;
    Ok(GkTable::of(rows))
}

/// The keys, by their aliases.
fn keys(alloc: Global, reader: &mut Reader<'_>) -> Result<KeyTable, Misread>
    ensures gives { (ys : List (ℕ × List ℕ)) (rest : List ℕ) → IsTable nat_cmp ys
        → AllByRecursion IsKeyRow ys
        → reader.old.left ≡ keys_part ys ++ rest
        → GaveBut (λ table. table) result reader.new.left ys rest }
{
    let count = number_32(reader)?;
    let rows = key_rows(alloc, reader, count)?;
    Ok(KeyTable::of(rows))
}

fn cell(reader: &mut Reader<'_>) -> Result<ResumeCell, Short>
    ensures gives { (held : Option (List ℕ)) (rest : List ℕ)
        → IfSome held (λ key. length key ≡ 32) → reader.old.left ≡ cell_bytes held ++ rest
        → Gave result reader.new.left held rest }
{
    let flag = reader.u8()?;
    if flag == 0 {
        return Ok(ResumeCell::new());
    }
    let key = array_32(reader)?;
    Ok(ResumeCell::of(Some(key)))
}

/// What the bytes begin with, as devices.
fn devices(alloc: Global, reader: &mut Reader<'_>) -> Result<Devices, Misread>
    ensures gives { (k : Kept) (rest : List ℕ) → IsKept k → reader.old.left ≡ body k ++ rest
        → GaveBut kept_of result reader.new.left k rest }
{
    let slots = slots(alloc, reader)?;
    let gk_key = array_32(reader)?;
    let records = records(alloc, reader)?;
    let keys = keys(alloc, reader)?;
    let cell = cell(reader)?;
    Ok(Devices {
        slots,
        gk: Gatekeeper::of(gk_key, records),
        keys: KeyStore::of(keys),
        cell,
    })
}

/// What the bytes begin with, as a sequence number and devices.
fn begun(alloc: Global, bytes: &[u8]) -> Result<(u64, Devices), Misread>
    requires short { length bytes.now < 2 ^ 31 }
    ensures gives { (i : Image) (rest : List ℕ) → i.sequence < 2 ^ 64 → IsKept i.kept
        → bytes.now ≡ front i ++ rest
        → MatchResult result (λ r. image_of r.0 r.1 ≡ i) (λ e. e ≡ Misread.Memory) }
{
    let mut reader = Reader::new(bytes);
    let sequence = number_64(&mut reader)?;
    let devices = devices(alloc, &mut reader)?;
    Ok((sequence, devices))
}

/// Whether the bytes are the file of this number that keeps these devices.
fn is_file_of(
    alloc: Global,
    sequence: u64,
    devices: &Devices,
    bytes: &[u8],
) -> Result<bool, AllocError>
    ensures same { IfOk result
        (λ is. IsTrue is ↔ (bytes.now ≡ spelling (image_of sequence devices.now))) }
    ensures kept { OnOk result (IsKept (kept_of devices.now)) }
    ensures fits { sequence < 2 ^ 64 }
{
    let mut printed = Vec::new(alloc);
    print_front(devices, sequence, &mut printed)?;
    digest_into(&mut printed)?;
    Ok(printed.as_slice() == bytes)
}

/// The sequence number and the devices whose file these bytes are. Such a file has fewer than
/// 2^31 bytes.
pub fn parse(alloc: Global, bytes: &[u8]) -> Result<(u64, Devices), Misread>
    ensures read { IfOk result (λ r. IsFileOf (image_of r.0 r.1) bytes.now) }
    ensures only { (i : Image) → IsFileOf i bytes.now → IfOk result (λ r. image_of r.0 r.1 ≡ i) }
    ensures foreign { (i : Image) → IsFileOf i bytes.now → result ≡ Err Misread.Foreign → ⊥ }
{
    if bytes.len() >= 1 << 31 {
        return Err(Misread::Foreign);
    }
    let (sequence, devices) = begun(alloc, bytes)?;
    if !is_file_of(alloc, sequence, &devices, bytes)? {
        return Err(Misread::Foreign);
    }
    Ok((sequence, devices))
}
