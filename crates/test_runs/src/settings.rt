//! Two settings files, what is loaded of them, and what is prepared. Each file is given by the bytes
//! that it begins with; zeros follow up to its 4,096 bytes. There is none for `-`.
ghost use Rattle.std.specs.Prelude.{◌≡◌};

use crate::fault::RowFault;
use crate::words::bytes_of;
use ls_board::{Board, World};
use ls_bytes::Name;
use ls_fixtures::{board_on, open_settings};
use ls_memboard::MemBoard;
use ls_record::{Record, RecordFault};
use ls_settings::{OpenRefusal, PrepareFault, Settings};
use std::alloc::Global;

/// The sequence number and the number of users that are loaded, or the place of the first fault.
pub fn loaded(alloc: Global, args: &[&str]) -> Result<String, RowFault> {
    match args {
        [first, second] => {
            let mut board = board_with(alloc, *first, *second)?;
            match Settings::load(alloc, &mut board) {
                Ok(settings) => {
                    let (sequence, users) = (settings.sequence(), settings.record().users.len());
                    Ok(format!(in alloc; "{sequence} {users}")?)
                }
                Err(OpenRefusal::Foreign { at, .. }) => Ok(format!(in alloc; "foreign {at}")?),
                Err(_) => Err(RowFault::Memory),
            }
        }
        _ => Err(RowFault::Form),
    }
}

/// How many users a look sees in an empty directory, and how many files there are behind it and
/// behind loading.
pub fn looked(alloc: Global, args: &[&str]) -> Result<String, RowFault> {
    match args {
        [] => {
            let mut board = board_with(alloc, "-", "-")?;
            let users = users_of(alloc, &mut board)?;
            let before = board.world()?.files.len();
            let _ = open_settings(alloc, &mut board)?;
            let after = board.world()?.files.len();
            Ok(format!(in alloc; "{users} {before} {after}")?)
        }
        _ => Err(RowFault::Form),
    }
}

fn users_of<B: Board>(alloc: Global, board: &mut B) -> Result<u32, RowFault> {
    match Settings::look(alloc, board) {
        Ok(record) => Ok(record.users.len()),
        Err(_) => Err(RowFault::Memory),
    }
}

/// The first settings file and the record of a commit: the room that it needs, or that it is worn.
pub fn prepared(alloc: Global, args: &[&str]) -> Result<String, RowFault> {
    match args {
        [first, next] => {
            let mut board = board_with(alloc, *first, "-")?;
            let settings = open_settings(alloc, &mut board)?;
            room_of(alloc, &settings, record_of(alloc, *next)?)
        }
        _ => Err(RowFault::Form),
    }
}

fn room_of(alloc: Global, settings: &Settings, next: Record) -> Result<String, RowFault> {
    match settings.prepare(alloc, next) {
        Ok(plan) => {
            let (actions, bytes) = plan.weight();
            Ok(format!(in alloc; "{actions} {bytes}")?)
        }
        Err(PrepareFault::Worn) => Ok("worn".to_string(alloc)?),
        Err(PrepareFault::Memory) => Err(RowFault::Memory),
    }
}

/// The record of these bytes.
pub fn record_of(alloc: Global, word: &str) -> Result<Record, RowFault> {
    let bytes = bytes_of(alloc, word)?;
    match Record::parse(alloc, &bytes) {
        Ok(record) => Ok(record),
        Err(RecordFault::Memory) => Err(RowFault::Memory),
        Err(_) => Err(RowFault::Form),
    }
}

/// A board with these two settings files.
pub fn board_with(alloc: Global, first: &str, second: &str) -> Result<MemBoard, RowFault> {
    let mut world = World::blank(alloc, 0)?;
    put_settings(alloc, &mut world, b"settings.0", first)?;
    put_settings(alloc, &mut world, b"settings.1", second)?;
    Ok(board_on(alloc, world)?)
}

/// Puts a file of 4,096 bytes that begins with these; none for no bytes.
fn put_settings(alloc: Global, world: &mut World, name: &[u8], front: &str) -> Result<(), RowFault>
    ensures slots { world.new.slots ≡ world.old.slots }
{
    let mut bytes = bytes_of(alloc, front)?;
    if bytes.is_empty() {
        return Ok(());
    }
    bytes.resize(4096, 0)?;
    Ok(world.put_file(&Name::of(alloc, name)?, &bytes)?)
}
