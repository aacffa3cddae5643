//! Whole runs of the program over a board in memory, beside the plain program.
ghost use Rattle.std.specs.Prelude.{◌≤◌, length, IfOk};

use crate::calls::part_text;
use crate::fault::RowFault;
use crate::words::{bytes_of, digits_of, failures_of, said_of};
use ls_board::World;
use ls_bytes::{Bytes, Name};
use ls_memboard::MemBoard;
use ls_top::{Status, Users, replies_of, run};
use std::alloc::Global;

/// The bytes of a whole settings file.
const WHOLE: usize = 4096;

/// What the plain program answers to a script, where no user is there.
pub fn plain(alloc: Global, script: &[u8]) -> Result<String, RowFault> {
    let said = replies_of(alloc, Users::new(alloc), script)?;
    said_of(alloc, said.as_slice())
}

/// The calls that fail, the settings file, and the words, joined by `,`: the status, how many bytes of
/// the script weren't heard, what was said, and the settings file, both without the zeros at its end.
/// The file is `-` where there is none, and has 4,096 bytes where `+` stands in front of it.
pub fn ended(alloc: Global, args: &[&str], script: &[u8]) -> Result<String, RowFault> {
    match args {
        [failures, settings, words] => {
            let failures = failures_of(alloc, *failures)?;
            let world = world_of(alloc, *settings, script)?;
            let mut board = MemBoard::new(alloc, world, failures)?;
            let words = words_of(alloc, *words)?;
            let status = run(alloc, &words, &mut board);
            end_of(alloc, &status, &board)
        }
        _ => Err(RowFault::Form),
    }
}

/// A world with this settings file and this script, and no other file.
fn world_of(alloc: Global, settings: &str, script: &[u8]) -> Result<World, RowFault>
    ensures slots { IfOk result (λ world. length world.slots ≤ 256) }
{
    let mut world = World::blank(alloc, 64)?;
    world.input = Bytes::of(alloc, script)?;
    if settings != "-" {
        let bytes = file_of(alloc, settings)?;
        world.put_file(&Name::of(alloc, b"settings.0")?, &bytes)?;
    }
    Ok(world)
}

fn file_of(alloc: Global, word: &str) -> Result<Vec<u8>, RowFault> {
    match word.strip_prefix('+') {
        Some(front) => {
            let mut bytes = bytes_of(alloc, front)?;
            bytes.resize(WHOLE, 0)?;
            Ok(bytes)
        }
        None => bytes_of(alloc, word),
    }
}

/// The words, or none for `-`.
fn words_of(alloc: Global, word: &str) -> Result<Vec<String>, RowFault> {
    let mut words = Vec::new(alloc);
    if word == "-" {
        return Ok(words);
    }
    for part in word.split(',') {
        words
            .push(part.to_string(alloc)?)
            .map_err(|_| RowFault::Memory)?;
    }
    Ok(words)
}

fn end_of(alloc: Global, status: &Status, board: &MemBoard) -> Result<String, RowFault> {
    let world = board.world()?;
    let status = status_text(status);
    let unheard = world.input.as_slice().len();
    let said = said_of(alloc, board.said())?;
    let settings = settings_text(alloc, world.files.content(b"settings.0"))?;
    Ok(format!(in alloc; "{status} {unheard} {settings} {said}")?)
}

fn settings_text(alloc: Global, content: Option<&[u8]>) -> Result<String, RowFault> {
    match content {
        None => Ok("none".to_string(alloc)?),
        Some(bytes) => {
            let digits = digits_of(alloc, front_of(bytes))?;
            let len = bytes.len();
            Ok(format!(in alloc; "{digits}/{len}")?)
        }
    }
}

/// The bytes without the zeros at the end.
fn front_of(bytes: &[u8]) -> &[u8] {
    let mut front = bytes;
    for _ in 0..bytes.len() {
        match front {
            [more @ .., 0] => front = more,
            _ => break,
        }
    }
    front
}

fn status_text(status: &Status) -> &'static str {
    match status {
        Status::Done => "done",
        Status::Usage => "usage",
        Status::Foreign { name: _, at: 0 } => "foreign-at-0",
        Status::Foreign { name: _, at: _ } => "foreign",
        Status::Fault(part) => part_text(*part),
        Status::Memory => "memory",
        Status::TooLong => "too-long",
    }
}
