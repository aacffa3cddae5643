//! Worlds that the plans of protectors build on a board in memory.

use crate::building::commit::add_user;
use crate::fault::RowFault;
use ls_board::World;
use ls_fixtures::board_on;
use ls_record::Record;
use ls_vault::User;
use std::alloc::Global;

mod commit;
mod drawn;
mod plans;
mod protectors;
mod sizes;

/// What is built: user 10 with the protector 2, and the token 5 where the user has one.
pub const USER: u32 = 10;

pub const PROTECTOR: u64 = 2;

pub const TOKEN: u64 = 5;

/// The halves of the synthetic password.
pub const P0: [u8; 32] = [
    0, 1, 2, 3, 4, 5, 6, 7, 8, 9, 10, 11, 12, 13, 14, 15, 16, 17, 18, 19, 20, 21, 22, 23, 24, 25,
    26, 27, 28, 29, 30, 31,
];

pub const P1: [u8; 32] = [
    32, 33, 34, 35, 36, 37, 38, 39, 40, 41, 42, 43, 44, 45, 46, 47, 48, 49, 50, 51, 52, 53, 54, 55,
    56, 57, 58, 59, 60, 61, 62, 63,
];

/// The world behind the plans that build a user, and the commit of the record that names it.
pub fn built(alloc: Global, world: World, user: &User, holder: &Record) -> Result<World, RowFault> {
    if world.slots.len() > 256 {
        return Err(RowFault::Form);
    }
    let mut board = board_on(alloc, world)?;
    add_user(alloc, &mut board, user, holder)?;
    Ok(board.world()?)
}
