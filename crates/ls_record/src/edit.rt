//! A change of a record.
ghost use Rattle.std.specs.Prelude.{◌≡◌, IfOk};

use crate::row::UserRow;
use crate::writing::{put_armed, put_row};
use ls_arming::Arming;
use ls_bytes::{Bytes, Memory, put_be32, put_u8};
use std::alloc::Global;

/// A change of a record.
#[derive(Drop)]
pub enum Edit {
    /// The row in the place of its user's, or a new row.
    PutRow(UserRow),
    /// A user without its row. The user leaves the arming too, and an arming without users is none.
    DropRow { user: u32 },
    /// An arming in the place of the one before.
    SetArmed(Arming),
    /// No arming.
    ClearArmed,
}

impl Edit {
    ghost use Rattle.ls_record.specs.Edits.{edit_bytes};

    /// The one spelling of the change in format 02. A list that one byte can't count has no room.
    pub fn print(&self, alloc: Global) -> Result<Bytes, Memory>
        ensures spelled { IfOk result (λ bytes. bytes ≡ edit_bytes 2 self.now) }
    {
        let mut to = Bytes::of(alloc, &[])?;
        match self {
            Edit::PutRow(row) => {
                put_u8(&mut to, 1)?;
                put_row(&mut to, row)?;
            }
            Edit::DropRow { user } => {
                put_u8(&mut to, 2)?;
                put_be32(&mut to, *user)?;
            }
            Edit::SetArmed(armed) => {
                put_u8(&mut to, 3)?;
                put_armed(&mut to, armed)?;
            }
            Edit::ClearArmed => put_u8(&mut to, 4)?,
        }
        Ok(to)
    }
}
