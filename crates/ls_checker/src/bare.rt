//! Whether a world keeps nothing that its record doesn't name.
ghost use Rattle.std.specs.Prelude.{◌≡◌, ◌↔◌, None, IsTrue, IfOk};
ghost use Rattle.ls_standing.specs.Bare.{IsBare};

use crate::bare_devices::{keeps_named_counters, keeps_named_keys, keeps_named_slots};
use crate::bare_files::{keeps_known_files, leaves_strange_files};
use crate::quiet::is_disarmed;
use ls_board::World;
use ls_bytes::{Memory, Name};
use ls_record::Record;
use std::alloc::Global;

/// Whether the cell is empty, unless the record names an arming.
fn keeps_cell(world: &World, holder: &Record) -> bool
    ensures decided { IsTrue result ↔ (holder.now.armed ≡ None → world.now.cell ≡ None) }
{
    !is_disarmed(holder) || world.cell.is_none()
}

/// Whether a world keeps nothing that its record doesn't name, beside the retired files, and beside
/// the files of others as they were at the start.
pub fn is_bare(
    alloc: Global,
    start: &World,
    world: &World,
    holder: &Record,
    retired: &[Name],
) -> Result<bool, Memory>
    ensures decided { IfOk result (λ bare. IsTrue bare
        ↔ IsBare start.now world.now holder.now retired.now) }
{
    let files = keeps_known_files(world, holder, retired);
    let strange = leaves_strange_files(start, world);
    let slots = keeps_named_slots(alloc, world, holder)?;
    let counters = keeps_named_counters(world, holder);
    let keys = keeps_named_keys(world, holder);
    let cell = keeps_cell(world, holder);
    Ok(files && strange && slots && counters && keys && cell)
}
