//! What the two settings files of a world say.
ghost use Rattle.std.specs.Prelude.{◌≡◌, ◌↔◌, true, IsTrue, Ok, Some, IfOk, IfSome, IfNone, IsOkAnd};
ghost use Rattle.ls_formats.specs.declared.side.Side.TheVariants as sides;
ghost use Rattle.ls_checker.specs.Wholes.{IsWholeIfOpen};
ghost use Rattle.ls_naming.specs.Current.{Settled, current, is_open};
ghost use Rattle.ls_settings.specs.Loaded.{IsWhole};
ghost use Rattle.ls_board.specs.Effect.{file_at};
ghost use Rattle.ls_memboard.specs.Seen.{sight_of};

use ls_board::{FileTable, World};
use ls_bytes::Memory;
use ls_formats::Side;
use ls_memboard::{FailureList, MemBoard};
use ls_record::Record;
use ls_settings::{OpenRefusal, Settings};
use std::alloc::Global;

/// A board with these files, which never fails.
fn board_with(alloc: Global, files: &FileTable) -> Result<MemBoard, Memory>
    ensures told { IfOk result (λ b. IsTrue (sight_of b).told) }
    ensures never_fails { IfOk result (λ b. IsTrue (sight_of b).never_fails) }
    ensures files { IfOk result (λ b. (sight_of b).world.files ≡ files.now) }
{
    let mut world = World::blank(alloc, 0)?;
    world.files = files.copy()?;
    MemBoard::new(alloc, world, FailureList::new(alloc))
}

/// The record of the current settings, where they have no fault.
pub(crate) fn current_record(alloc: Global, world: &World) -> Result<Option<Record>, Memory>
    ensures found { IfOk result (λ found. IfSome found (λ r.
        IsOkAnd (current (file_at world.now)) (λ s. s.rec ≡ r))) }
    ensures none { IfOk result (λ found. IfNone found
        ((s : Settled) → ¬ (current (file_at world.now) ≡ Ok s))) }
{
    let mut board = board_with(alloc, &world.files)?;
    record_on(alloc, &mut board)
}

/// The record of the current settings on a board that never fails, where they have no fault.
fn record_on(alloc: Global, board: &mut MemBoard) -> Result<Option<Record>, Memory>
    requires told { IsTrue (sight_of board.old).told }
    requires never_fails { IsTrue (sight_of board.old).never_fails }
    ensures found { IfOk result (λ found. IfSome found (λ r.
        IsOkAnd (current (file_at (sight_of board.old).world)) (λ s. s.rec ≡ r))) }
    ensures none { IfOk result (λ found. IfNone found
        ((s : Settled) → ¬ (current (file_at (sight_of board.old).world) ≡ Ok s))) }
{
    match Settings::look(alloc, board) {
        Ok(record) => Ok(Some(record)),
        Err(OpenRefusal::Foreign { .. }) => Ok(None),
        // No call of this board fails.
        Err(OpenRefusal::Fault(_) | OpenRefusal::Memory) => Err(Memory),
    }
}

/// Whether a file that begins with these bytes has 4,096 of them, where its gate is open.
fn is_whole_if_open(bytes: &[u8]) -> bool
    ensures same { IsTrue result
        ↔ (is_open (Some bytes.now) ≡ true → IsWhole (Some bytes.now)) }
{
    match bytes {
        [] => true,
        [gate, ..] => *gate != 0xa5 || bytes.len() == 4096,
    }
}

/// Whether the file of a side has 4,096 bytes, where its gate is open.
fn side_is_whole(world: &World, side: Side) -> bool
    ensures same { IsTrue result ↔ IsWholeIfOpen world.now side }
{
    match world.files.content(side.file_name()) {
        None => true,
        Some(bytes) => is_whole_if_open(bytes),
    }
}

/// Whether each settings file whose gate is open has 4,096 bytes.
pub(crate) fn open_files_are_whole(world: &World) -> bool
    ensures same { IsTrue result
        ↔ (IsWholeIfOpen world.now sides.First × IsWholeIfOpen world.now sides.Second) }
{
    side_is_whole(world, Side::First) && side_is_whole(world, Side::Second)
}
