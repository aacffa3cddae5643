//! Worlds that were swept on a board in memory.

use crate::fault::RowFault;
use ls_board::{BoardFault, World};
use ls_fixtures::board_on;
use ls_record::Record;
use ls_sweep::sweep_unnamed;
use std::alloc::Global;

/// The world once all is taken away that the record doesn't name. No call fails.
pub fn swept(alloc: Global, world: World, holder: &Record) -> Result<World, RowFault> {
    if world.slots.len() > 256 {
        return Err(RowFault::Form);
    }
    let mut board = board_on(alloc, world)?;
    match sweep_unnamed(alloc, &mut board, holder) {
        Ok(()) => Ok(board.world()?),
        Err(BoardFault::Memory) => Err(RowFault::Memory),
        Err(BoardFault::Failed(_)) => Err(RowFault::Form),
    }
}
