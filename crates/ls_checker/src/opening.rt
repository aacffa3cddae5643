//! The checks of opening over all files that a record names.
ghost use Rattle.std.specs.Prelude.{◌≡◌, IfOk};
ghost use Rattle.ls_standing.specs.Opening.{first_foreign};

use crate::walk::{Walk, pass_rows};
use ls_board::World;
use ls_bytes::{Memory, SlotList};
use ls_opening::{Beside, Foreign};
use ls_record::Record;
use std::alloc::Global;

/// The first file at fault among those that a record names, in the order of the checks.
#[tactic(auto, using(crate::proofs::WalkLemmas::walked_says))]
pub fn first_foreign(
    alloc: Global,
    world: &World,
    holder: &Record,
) -> Result<Option<Foreign>, Memory>
    ensures exact { IfOk result (λ foreign. foreign ≡ first_foreign world.now holder.now) }
{
    let beside = Beside {
        slots: world.slots.len(),
        earlier: SlotList::new(alloc),
        version: 0,
    };
    let mut walk = Walk {
        beside,
        foreign: None,
    };
    pass_rows(
        alloc,
        world,
        &holder.armed,
        holder.users.as_slice(),
        &mut walk,
    )?;
    Ok(walk.foreign)
}
