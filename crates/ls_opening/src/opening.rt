//! The checks of opening over all files that a record names.
ghost use Rattle.std.specs.Prelude.{◌≡◌, [], None};
ghost use Rattle.ls_board.specs.Acts.{Sight};
ghost use Rattle.ls_reading.specs.Reading.{Sees};
ghost use Rattle.ls_standing.specs.Opening.{first_foreign};
ghost use Rattle.ls_opening.specs.Walking.{passed_rows};

use crate::checks::Beside;
use crate::foreign::Foreign;
use crate::walk::{Walk, pass_rows};
use ls_board::{Board, BoardFault};
use ls_bytes::SlotList;
use ls_record::Record;
use std::alloc::Global;

/// Before the first file.
fn start(alloc: Global, slots: u32) -> Walk
    ensures start { result ≡ record { beside = record { slots = slots; earlier = []; version = 0 }; foreign = None } }
{
    Walk {
        beside: Beside {
            slots,
            earlier: SlotList::new(alloc),
            version: 0,
        },
        foreign: None,
    }
}

/// The first file at fault among those that a record names. They are read in the order of the
/// checks, one after another, up to the first at fault.
pub fn first_foreign<B: Board>(
    alloc: Global,
    board: &mut B,
    holder: &Record,
) -> Result<Option<Foreign>, BoardFault>
    ensures sees { Sees (λ w. first_foreign w holder.now)
        (B.sight board.old) result (B.sight board.new) }
{
    let slots = board.slots();
    let walk = pass_rows(
        alloc,
        board,
        slots > 0,
        &holder.armed,
        holder.users.as_slice(),
        start(alloc, slots),
    )?;
    Ok(walk.foreign)
}
