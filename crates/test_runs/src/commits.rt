//! What a crash leaves of one commit: each image says the old record or the new one.
ghost use Rattle.std.specs.Prelude.{IsTrue};
ghost use Rattle.ls_board.specs.Acts.{Sight};
ghost use Rattle.ls_settings.specs.Loaded.{IsReady};

use crate::fault::RowFault;
use crate::settings::{board_with, record_of};
use crate::words::{bytes_of, content_of, number_of, pick_of};
use ls_board::Board;
use ls_fixtures::{board_on, open_settings};
use ls_memboard::{MemBoard, Pick};
use ls_record::Record;
use ls_settings::Settings;
use std::alloc::Global;

/// Two settings files, the record that they say and the one that is committed, and a pick: for each
/// moment, from none to all calls, whether the image of a crash says the `old` record (`o`), the next
/// one (`n`), or another (`?`).
pub fn images(alloc: Global, args: &[&str]) -> Result<String, RowFault> {
    match args {
        [first, second, old, next, pick] => {
            let board = committed(alloc, *first, *second, *next)?;
            let old = bytes_of(alloc, *old)?;
            let next = bytes_of(alloc, *next)?;
            all_said(alloc, &board, &old, &next, pick_of(*pick)?)
        }
        _ => Err(RowFault::Form),
    }
}

/// Two settings files, the record that is committed, a settings file, and a number: the bytes that
/// the file begins with behind the commit, so many.
pub fn written(alloc: Global, args: &[&str]) -> Result<String, RowFault> {
    match args {
        [first, second, next, name, len] => {
            let board = committed(alloc, *first, *second, *next)?;
            let world = board.world()?;
            let content = world.files.content(name.as_bytes());
            content_of(alloc, front_of(content, number_of(*len)?))
        }
        _ => Err(RowFault::Form),
    }
}

fn front_of(content: Option<&[u8]>, len: u64) -> Option<&[u8]> {
    match content {
        Some(bytes) if len <= bytes.len() as u64 => Some(&bytes[..len as usize]),
        _ => None,
    }
}

/// A board on which the record was committed.
fn committed(alloc: Global, first: &str, second: &str, next: &str) -> Result<MemBoard, RowFault> {
    let next = record_of(alloc, next)?;
    let mut board = board_with(alloc, first, second)?;
    commit(alloc, &mut board, next)?;
    Ok(board)
}

/// Opens the settings, and commits a record.
fn commit<B: Board>(alloc: Global, board: &mut B, next: Record) -> Result<(), RowFault> {
    let mut settings = open_settings(alloc, board)?;
    commit_by(alloc, board, &mut settings, next)
}

fn commit_by<B: Board>(
    alloc: Global,
    board: &mut B,
    settings: &mut Settings,
    next: Record,
) -> Result<(), RowFault>
    requires ready { IsTrue (B.sight board.old).told
        → IsReady (B.sight board.old).world settings.old }
{
    let Ok(plan) = settings.prepare(alloc, next) else {
        return Err(RowFault::Form);
    };
    let (actions, bytes) = plan.weight();
    board.ready(alloc, actions, bytes)?;
    match settings.commit(board, plan) {
        Ok(_) => Ok(()),
        Err(_) => Err(RowFault::Form),
    }
}

/// A letter for each moment.
fn all_said(
    alloc: Global,
    board: &MemBoard,
    old: &[u8],
    next: &[u8],
    pick: Pick,
) -> Result<String, RowFault> {
    let mut text = String::new(alloc);
    let calls = board.moment();
    for moment in 0..calls {
        text.push(letter_at(alloc, board, old, next, moment, pick)?)?;
    }
    text.push(letter_at(alloc, board, old, next, calls, pick)?)?;
    Ok(text)
}

/// Which record the image of a crash at this moment says.
fn letter_at(
    alloc: Global,
    board: &MemBoard,
    old: &[u8],
    next: &[u8],
    moment: u64,
    pick: Pick,
) -> Result<char, RowFault> {
    if moment > board.moment() {
        return Err(RowFault::Form);
    }
    let image = board.cut(moment, pick)?;
    if image.slots.len() > 256 {
        return Err(RowFault::Form);
    }
    let mut after = board_on(alloc, image)?;
    said_by(alloc, &mut after, old, next)
}

fn said_by<B: Board>(
    alloc: Global,
    board: &mut B,
    old: &[u8],
    next: &[u8],
) -> Result<char, RowFault> {
    let Ok(settings) = Settings::load(alloc, board) else {
        return Ok('?');
    };
    let said = settings.record().print(alloc)?;
    if said.as_slice() == old {
        Ok('o')
    } else if said.as_slice() == next {
        Ok('n')
    } else {
        Ok('?')
    }
}
