//! A secure file, printed.
ghost use Rattle.std.specs.Prelude.{◌≡◌, ◌++◌, ◌<◌, ◌^◌, OnOk};
ghost use Rattle.std.specs.List.{AllByRecursion};
ghost use Rattle.std.specs.Ordering.{nat_cmp};
ghost use Rattle.ls_board.specs.Order.{IsTable};
ghost use Rattle.ls_bytes.specs.Fields.{be32, be64};
ghost use Rattle.ls_secure.specs.Held.{kept_of, image_of};
ghost use Rattle.ls_secure.specs.Secure.{IsSlot, IsRecordRow, IsKeyRow, IsKept, slot_bytes, record_bytes, key_bytes, cell_bytes, slots_part, records_part, keys_part, front, closed};

use crate::devices::Devices;
use ls_board::{Counter, IdTable};
use ls_weaver::{Slot, Weaver};
use sha2::{Digest, Sha256};
use std::alloc::AllocError;

/// What putting bytes at the end of a list answers.
pub type Put = Result<(), AllocError>;

fn put_u32(out: &mut Vec<u8>, number: u32) -> Put
    ensures put { OnOk result (out.new.items ≡ out.old.items ++ be32 number) }
{
    out.extend_from_slice(&number.to_be_bytes())
}

fn put_u64(out: &mut Vec<u8>, number: u64) -> Put
    ensures put { OnOk result (out.new.items ≡ out.old.items ++ be64 number) }
{
    out.extend_from_slice(&number.to_be_bytes())
}

fn put_slot(out: &mut Vec<u8>, slot: &Slot) -> Put
    ensures put { OnOk result (out.new.items ≡ out.old.items ++ slot_bytes slot.now) }
    ensures fits { OnOk result (IsSlot slot.now) }
{
    out.extend_from_slice(&slot.key)?;
    out.extend_from_slice(&slot.value)?;
    put_u32(out, slot.fails)?;
    put_u64(out, slot.until)
}

fn put_record(out: &mut Vec<u8>, row: &(u64, Counter)) -> Put
    ensures put { OnOk result (out.new.items ≡ out.old.items ++ record_bytes row.now) }
    ensures fits { OnOk result (IsRecordRow row.now) }
{
    put_u64(out, row.0)?;
    put_u32(out, row.1.fails)?;
    put_u64(out, row.1.until)
}

fn put_key(out: &mut Vec<u8>, row: &(u64, [u8; 32])) -> Put
    ensures put { OnOk result (out.new.items ≡ out.old.items ++ key_bytes row.now) }
    ensures fits { OnOk result (IsKeyRow row.now) }
{
    put_u64(out, row.0)?;
    out.extend_from_slice(&row.1)
}

fn put_slots(out: &mut Vec<u8>, slots: &Weaver) -> Put
    ensures put { OnOk result (out.new.items ≡ out.old.items ++ slots_part slots.now) }
    ensures each { OnOk result (AllByRecursion IsSlot slots.now) }
{
    put_u32(out, slots.len())?;
    for at in 0..slots.len() {
        let Some(slot) = slots.get(at) else {
            return Ok(());
        };
        put_slot(out, slot)?;
    }
    Ok(())
}

fn put_records(out: &mut Vec<u8>, records: &IdTable<Counter>) -> Put
    ensures put { OnOk result (out.new.items ≡ out.old.items ++ records_part records.now.rows) }
    ensures each { OnOk result (AllByRecursion IsRecordRow records.now.rows) }
    ensures table { IsTable nat_cmp records.now.rows }
{
    put_u32(out, records.len())?;
    for at in 0..records.len() {
        let Some(row) = records.get(at) else {
            return Ok(());
        };
        put_record(out, row)?;
    }
    Ok(())
}

fn put_keys(out: &mut Vec<u8>, keys: &IdTable<[u8; 32]>) -> Put
    ensures put { OnOk result (out.new.items ≡ out.old.items ++ keys_part keys.now.rows) }
    ensures each { OnOk result (AllByRecursion IsKeyRow keys.now.rows) }
    ensures table { IsTable nat_cmp keys.now.rows }
{
    put_u32(out, keys.len())?;
    for at in 0..keys.len() {
        let Some(row) = keys.get(at) else {
            return Ok(());
        };
        put_key(out, row)?;
    }
    Ok(())
}

fn put_cell(out: &mut Vec<u8>, cell: &Option<[u8; 32]>) -> Put
    ensures put { OnOk result (out.new.items ≡ out.old.items ++ cell_bytes cell.now) }
{
    match cell {
        None => out.extend_from_slice(&[0]),
        Some(key) => {
            out.extend_from_slice(&[1])?;
            out.extend_from_slice(key)
        }
    }
}

/// Prints all of the file of this number but its digest.
pub fn print_front(devices: &Devices, sequence: u64, out: &mut Vec<u8>) -> Put
    ensures printed { OnOk result (out.new.items ≡ front (image_of sequence devices.now)) }
    ensures kept { OnOk result (IsKept (kept_of devices.now)) }
    ensures fits { sequence < 2 ^ 64 }
{
    out.clear();
    put_u64(out, sequence)?;
    put_slots(out, &devices.slots)?;
    out.extend_from_slice(&devices.gk.key())?;
    put_records(out, devices.gk.records())?;
    put_keys(out, devices.keys.keys())?;
    put_cell(out, &devices.cell.get())
}

/// Puts the SHA-256 of all that stands there behind it.
#[tactic(auto, unfolding(crate::specs::Secure::closed))]
pub fn digest_into(out: &mut Vec<u8>) -> Put
    ensures put { OnOk result (out.new.items ≡ closed out.old.items) }
{
    let digest = Sha256::digest(out.as_slice());
    out.extend_from_slice(&digest)
}
