//! Plans, worlds and the tables of the board.

use crate::answer::{Answer, RowFault};
use crate::words::{array_of, byte_of, half_of, number_of, word_of};
use ls_board::{
    Action, FileRow, FileTable, GkRow, GkTable, IdTable, KeyRow, KeyTable, Plan, Touch, TouchRow,
    TouchTable, World,
};
use ls_bytes::{Bytes, Memory, Name, NameFault};
use std::alloc::Global;

/// The name that these bytes are.
pub fn name_of(alloc: Global, bytes: &[u8]) -> Result<Name, RowFault> {
    match Name::of(alloc, bytes) {
        Ok(name) => Ok(name),
        Err(NameFault::Memory) => Err(RowFault::Memory),
        Err(_) => Err(RowFault::Form),
    }
}

// ---- plans

/// A plan without actions.
pub fn plan(alloc: Global, to: &mut Answer, args: &[Vec<u8>]) {
    let mut plan = Plan::new(alloc);
    for ask in args.chunks(3) {
        ask_plan(alloc, to, &mut plan, ask);
    }
}

/// `make` has a name and a size, `say` a text; `append` puts a plan behind it that says a text.
fn ask_plan(alloc: Global, to: &mut Answer, plan: &mut Plan, ask: &[Vec<u8>]) {
    match ask {
        [name, one, other] => match word_of(name) {
            "weight" => {
                let (actions, bytes) = plan.weight();
                to.pair(u64::from(actions), bytes);
            }
            "make" => make(alloc, to, plan, one, other),
            "sync" => to.done(plan.push(Action::Sync)),
            "say" => to.done(say(alloc, plan, one)),
            "append" => to.done(append(alloc, plan, one)),
            _ => to.is_no_row(),
        },
        _ => to.is_no_row(),
    }
}

fn make(alloc: Global, to: &mut Answer, plan: &mut Plan, name: &[u8], len: &[u8]) {
    let len = half_of(to, len);
    match name_of(alloc, name) {
        Ok(name) => to.done(plan.push(Action::Make { name, len })),
        Err(fault) => to.fails(fault),
    }
}

fn say(alloc: Global, plan: &mut Plan, text: &[u8]) -> Result<(), Memory> {
    let bytes = Bytes::of(alloc, text)?;
    plan.push(Action::Say { bytes })
}

fn append(alloc: Global, plan: &mut Plan, text: &[u8]) -> Result<(), Memory> {
    let mut other = Plan::new(alloc);
    say(alloc, &mut other, text)?;
    plan.append(other)
}

// ---- worlds

/// A blank world with so many slots.
pub fn world(alloc: Global, to: &mut Answer, args: &[Vec<u8>]) {
    match args {
        [slots, asks @ ..] => match World::blank(alloc, u32::from(byte_of(to, slots))) {
            Ok(mut world) => ask_all(alloc, to, &mut world, asks),
            Err(_) => to.lacks_memory(),
        },
        _ => to.is_no_row(),
    }
}

fn ask_all(alloc: Global, to: &mut Answer, world: &mut World, asks: &[Vec<u8>]) {
    for ask in asks.chunks(3) {
        ask_world(alloc, to, world, ask);
    }
}

/// `put` has a name and what the file holds, `drop` a name; with `copy` it goes on as a copy.
fn ask_world(alloc: Global, to: &mut Answer, world: &mut World, ask: &[Vec<u8>]) {
    match ask {
        [name, file, bytes] => match word_of(name) {
            "content" => content(to, &world.files, file),
            "counts" => to.pair(u64::from(world.files.len()), u64::from(world.slots.len())),
            "put" => put(alloc, to, world, file, bytes),
            "drop" => drop_file(alloc, to, world, file),
            "copy" => to.done(copy(alloc, world)),
            _ => to.is_no_row(),
        },
        _ => to.is_no_row(),
    }
}

fn content(to: &mut Answer, files: &FileTable, name: &[u8]) {
    match files.content(name) {
        Some(bytes) => to.digits(bytes),
        None => to.word("absent"),
    }
}

fn put(alloc: Global, to: &mut Answer, world: &mut World, name: &[u8], bytes: &[u8]) {
    match name_of(alloc, name) {
        Ok(name) => to.done(world.put_file(&name, bytes)),
        Err(fault) => to.fails(fault),
    }
}

fn drop_file(alloc: Global, to: &mut Answer, world: &mut World, name: &[u8]) {
    match name_of(alloc, name) {
        Ok(name) => world.drop_file(&name),
        Err(fault) => to.fails(fault),
    }
}

fn copy(alloc: Global, world: &mut World) -> Result<(), Memory> {
    *world = world.copy(alloc)?;
    Ok(())
}

// ---- tables by numbers

/// A table of values by their numbers, without rows.
pub fn ids(alloc: Global, to: &mut Answer, args: &[Vec<u8>]) {
    let mut table = IdTable::new(alloc);
    for ask in args.chunks(3) {
        ask_ids(alloc, to, &mut table, ask);
    }
}

/// `get` has a place, `find` a number; `put` and `set` have a number and its value, `remove` a
/// number; with `copy` it goes on as a copy.
fn ask_ids(alloc: Global, to: &mut Answer, table: &mut IdTable<u32>, ask: &[Vec<u8>]) {
    match ask {
        [name, id, value] => match word_of(name) {
            "get" => {
                let at = half_of(to, id);
                row(to, table.get(at));
            }
            "find" => {
                let id = number_of(to, id);
                found(to, table.find(id));
            }
            "put" => put_id(to, table, id, value),
            "set" => set(to, table, id, value),
            "remove" => table.remove(number_of(to, id)),
            "copy" => to.done(copy_ids(alloc, table)),
            _ => to.is_no_row(),
        },
        _ => to.is_no_row(),
    }
}

fn row(to: &mut Answer, row: Option<&(u64, u32)>) {
    match row {
        Some((id, value)) => to.pair(*id, u64::from(*value)),
        None => to.word("past"),
    }
}

fn found(to: &mut Answer, value: Option<u32>) {
    match value {
        Some(value) => to.number(u64::from(value)),
        None => to.word("absent"),
    }
}

fn put_id(to: &mut Answer, table: &mut IdTable<u32>, id: &[u8], value: &[u8]) {
    let (id, value) = (number_of(to, id), half_of(to, value));
    match table.reserve(1) {
        Ok(()) => table.put(id, value),
        Err(_) => to.lacks_memory(),
    }
}

fn set(to: &mut Answer, table: &mut IdTable<u32>, id: &[u8], value: &[u8]) {
    let (id, value) = (number_of(to, id), half_of(to, value));
    match table.find(id) {
        Some(_) => table.set(id, value),
        None => to.is_no_row(),
    }
}

fn copy_ids(alloc: Global, table: &mut IdTable<u32>) -> Result<(), Memory> {
    *table = table.copy(alloc)?;
    Ok(())
}

// ---- copies of tables of one row

/// The row and the key that a copy of a table of one key has: alias, key.
pub fn pushed_key(alloc: Global, to: &mut Answer, args: &[Vec<u8>]) {
    match args {
        [alias, key] => {
            let (alias, key) = (number_of(to, alias), array_of(to, key));
            match copied_key(alloc, alias, key) {
                Ok(keys) => key_in(to, &keys, alias),
                Err(_) => to.lacks_memory(),
            }
        }
        _ => to.is_no_row(),
    }
}

fn copied_key(alloc: Global, alias: u64, key: [u8; 32]) -> Result<KeyTable, Memory> {
    let mut keys = KeyTable::new(alloc);
    keys.push(KeyRow { alias, key })?;
    keys.copy(alloc)
}

fn key_in(to: &mut Answer, keys: &KeyTable, alias: u64) {
    match (keys.get(0), keys.find(alias)) {
        (Some(row), Some(key)) => {
            to.number(row.alias);
            to.digits(&row.key);
            to.digits(&key);
        }
        _ => to.is_no_row(),
    }
}

/// The row and the counter that a copy of a table of one record has: id, failures, moment.
pub fn pushed_record(alloc: Global, to: &mut Answer, args: &[Vec<u8>]) {
    match args {
        [sid, fails, until] => {
            let sid = number_of(to, sid);
            let fails = half_of(to, fails);
            let until = number_of(to, until);
            match copied_record(alloc, GkRow { sid, fails, until }) {
                Ok(records) => record_in(to, &records, sid),
                Err(_) => to.lacks_memory(),
            }
        }
        _ => to.is_no_row(),
    }
}

fn copied_record(alloc: Global, row: GkRow) -> Result<GkTable, Memory> {
    let mut records = GkTable::new(alloc);
    records.push(row)?;
    records.copy(alloc)
}

fn record_in(to: &mut Answer, records: &GkTable, sid: u64) {
    match (records.get(0), records.find(sid)) {
        (Some(row), Some(counter)) => {
            to.number(row.sid);
            to.number(u64::from(row.fails));
            to.number(row.until);
            to.number(u64::from(counter.fails));
            to.number(counter.until);
        }
        _ => to.is_no_row(),
    }
}

/// What a copy of a table of one file holds by this name: name, content.
pub fn pushed_file(alloc: Global, to: &mut Answer, args: &[Vec<u8>]) {
    match args {
        [name, bytes] => match name_of(alloc, name) {
            Ok(file) => match copied_file(alloc, file, bytes) {
                Ok(files) => content(to, &files, name),
                Err(_) => to.lacks_memory(),
            },
            Err(fault) => to.fails(fault),
        },
        _ => to.is_no_row(),
    }
}

fn copied_file(alloc: Global, name: Name, bytes: &[u8]) -> Result<FileTable, Memory> {
    let bytes = Bytes::of(alloc, bytes)?;
    let mut files = FileTable::new(alloc);
    files.push(FileRow { name, bytes })?;
    files.copy()
}

/// How many rows a copy of a table of two touched files has: a pushed name, a put one.
pub fn touched(alloc: Global, to: &mut Answer, args: &[Vec<u8>]) {
    match args {
        [pushed, put] => match touched_files(alloc, pushed, put) {
            Ok(touched) => copied_len(to, &touched),
            Err(fault) => to.fails(fault),
        },
        _ => to.is_no_row(),
    }
}

fn touched_files(alloc: Global, pushed: &[u8], put: &[u8]) -> Result<TouchTable, RowFault> {
    let mut touched = made_file(alloc, name_of(alloc, pushed)?)?;
    put_other(alloc, &mut touched, put)?;
    Ok(touched)
}

fn made_file(alloc: Global, name: Name) -> Result<TouchTable, RowFault> {
    let mut touched = TouchTable::new(alloc);
    let how = Touch::Made(None);
    match touched.push(TouchRow { name, how }) {
        Ok(()) => Ok(touched),
        Err(_) => Err(RowFault::Memory),
    }
}

fn put_other(alloc: Global, touched: &mut TouchTable, name: &[u8]) -> Result<(), RowFault> {
    let name = name_of(alloc, name)?;
    match touched.put(&name, Touch::Other) {
        Ok(()) => Ok(()),
        Err(_) => Err(RowFault::Memory),
    }
}

fn copied_len(to: &mut Answer, touched: &TouchTable) {
    match touched.copy() {
        Ok(copy) => to.number(u64::from(copy.len())),
        Err(_) => to.lacks_memory(),
    }
}
