//! Changes of slots, keys, the Gatekeeper's records and the resume cell.

use crate::fault::RowFault;
use crate::words::{array_of, number_of, word_of};
use ls_board::{Counter, GkTable, KeyTable, SlotTable, World};
use ls_bytes::Memory;
use std::alloc::Global;

/// Changes one thing.
pub fn change(
    alloc: Global,
    world: &mut World,
    change: &str,
    args: &[Vec<u8>],
) -> Result<(), RowFault> {
    match args {
        [] if change == "clear-cell" => {
            world.cell = None;
            Ok(())
        }
        [arg] => change_with_one(alloc, world, change, arg),
        [id, arg] => change_with_two(alloc, world, change, id, arg),
        [slot, key, value] if change == "write" => {
            write(&mut world.slots, word_of(slot), key, value)
        }
        _ => Err(RowFault::Form),
    }
}

fn change_with_one(
    alloc: Global,
    world: &mut World,
    change: &str,
    arg: &[u8],
) -> Result<(), RowFault> {
    match change {
        "drop-key" => Ok(drop_key(alloc, &mut world.keys, number_of(arg))?),
        "forget" => Ok(forget(alloc, &mut world.gk, number_of(arg))?),
        "fill-cell" => fill_cell(world, arg),
        "gatekeeper-key" => {
            world.gk_key = array_of(arg)?;
            Ok(())
        }
        _ => Err(RowFault::Form),
    }
}

fn change_with_two(
    alloc: Global,
    world: &mut World,
    change: &str,
    id: &[u8],
    arg: &[u8],
) -> Result<(), RowFault> {
    match change {
        "read" => read(&mut world.slots, word_of(id), arg),
        "key" => put_key(alloc, &mut world.keys, number_of(id), arg),
        "count" => Ok(count(alloc, &mut world.gk, number_of(id), word_of(arg))?),
        _ => Err(RowFault::Form),
    }
}

fn fill_cell(world: &mut World, key: &[u8]) -> Result<(), RowFault> {
    world.cell = Some(array_of(key)?);
    Ok(())
}

// ---- slots

/// Gives a slot a key and a value.
fn write(slots: &mut SlotTable, slot: u32, key: &[u8], value: &[u8]) -> Result<(), RowFault> {
    let key = array_of(key)?;
    let value = array_of(value)?;
    if slot < slots.len() {
        slots.write(slot, &key, &value);
        Ok(())
    } else {
        Err(RowFault::Form)
    }
}

/// Reads a slot with a key, at the moment 0.
fn read(slots: &mut SlotTable, slot: u32, key: &[u8]) -> Result<(), RowFault> {
    let key = array_of(key)?;
    if slot < slots.len() {
        let _ = slots.read(slot, &key, 0);
        Ok(())
    } else {
        Err(RowFault::Form)
    }
}

// ---- keys

fn put_key(alloc: Global, keys: &mut KeyTable, alias: u64, key: &[u8]) -> Result<(), RowFault> {
    let key = array_of(key)?;
    let mut table = keys.copy(alloc)?.into_table();
    table.reserve(1)?;
    table.put(alias, key);
    *keys = KeyTable::of(table);
    Ok(())
}

fn drop_key(alloc: Global, keys: &mut KeyTable, alias: u64) -> Result<(), Memory> {
    let mut table = keys.copy(alloc)?.into_table();
    table.remove(alias);
    *keys = KeyTable::of(table);
    Ok(())
}

// ---- the Gatekeeper

/// Gives an id so many failures.
fn count(alloc: Global, records: &mut GkTable, sid: u64, fails: u32) -> Result<(), Memory> {
    let mut table = records.copy(alloc)?.into_table();
    table.reserve(1)?;
    table.put(sid, Counter { fails, until: 0 });
    *records = GkTable::of(table);
    Ok(())
}

fn forget(alloc: Global, records: &mut GkTable, sid: u64) -> Result<(), Memory> {
    let mut table = records.copy(alloc)?.into_table();
    table.remove(sid);
    *records = GkTable::of(table);
    Ok(())
}
