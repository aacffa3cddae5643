//! The world that calls have made, as a value.
ghost use Rattle.std.specs.Prelude.{◌≡◌, ◌≤◌, length, take, IfOk, OnOk};
ghost use Rattle.ls_memboard.specs.Beside.{bare, beside, with_files_of};
ghost use Rattle.ls_memboard.specs.Replay.{AllIn, replay};

use crate::call::Entry;
use crate::devices::Devices;
use crate::memory::MemBoard;
use crate::redo::redo;
use ls_board::{GkTable, KeyTable, World};
use ls_bytes::{Bytes, Memory, Rows};
use std::alloc::Global;

/// The same items again.
fn copied<T: Copy + Drop>(alloc: Global, items: &[T]) -> Result<Rows<T>, Memory>
    ensures same { IfOk result (λ list. list ≡ items.now) }
{
    let mut list = Rows::new(alloc);
    for item in items {
        list.push(*item)?;
    }
    Ok(list)
}

/// Makes the world's devices these.
fn take_devices(alloc: Global, world: &mut World, devices: &Devices) -> Result<(), Memory>
    ensures joined { OnOk result (world.new ≡ with_files_of (beside devices.now) world.old) }
{
    take_stored(alloc, world, devices)?;
    take_streams(alloc, world, devices)
}

/// Makes these what the world's devices store, one at a time.
fn take_stored(alloc: Global, world: &mut World, devices: &Devices) -> Result<(), Memory>
    ensures taken { OnOk result (world.new ≡ record world.old {
      slots = devices.now.slots;
      gk_key = devices.now.gk.key;
      gk = devices.now.gk.records;
      keys = devices.now.keys.keys;
      cell = devices.now.cell;
    }) }
{
    world.slots = devices.slots.copy(alloc)?;
    world.gk_key = devices.gk.key();
    world.gk = GkTable::of(devices.gk.records().copy(alloc)?);
    world.keys = KeyTable::of(devices.keys.keys().copy(alloc)?);
    world.cell = devices.cell.get();
    Ok(())
}

/// Makes these what the world hears, said and draws next, one at a time.
fn take_streams(alloc: Global, world: &mut World, devices: &Devices) -> Result<(), Memory>
    ensures taken { OnOk result (world.new ≡ record world.old {
      input = devices.now.input;
      said = devices.now.said.items;
      moments = devices.now.moments;
      noise = devices.now.noise;
    }) }
{
    world.input = Bytes::of(alloc, devices.input.rest())?;
    world.said = Bytes::of(alloc, &devices.said)?;
    world.moments = copied(alloc, devices.moments.rest())?;
    world.noise = Bytes::of(alloc, devices.noise.rest())?;
    Ok(())
}

/// Does these calls again, to the files of the world and to its devices.
fn redo_all(
    alloc: Global,
    world: &mut World,
    devices: &mut Devices,
    pool: &[u8],
    log: &[Entry],
) -> Result<(), Memory>
    requires within { AllIn pool.now log.now }
    requires begins { beside devices.old ≡ bare world.old }
    ensures files { OnOk result (world.new
        ≡ with_files_of world.old (replay pool.now world.old log.now)) }
    ensures devices { OnOk result (beside devices.new
        ≡ bare (replay pool.now world.old log.now)) }
{
    for e in log {
        redo(alloc, world, pool, e)?;
        devices.make_room(1, e.kept.bytes)?;
        devices.redo(pool, e);
    }
    Ok(())
}

/// The world that these calls make of the one they start at.
fn rebuild(alloc: Global, start: &World, pool: &[u8], log: &[Entry]) -> Result<World, Memory>
    requires within { AllIn pool.now log.now }
    ensures same { IfOk result (λ w. w ≡ replay pool.now start.now log.now) }
{
    let mut world = start.copy(alloc)?;
    rebuild_in(alloc, &mut world, pool, log)?;
    Ok(world)
}

/// Makes the world what these calls make of it.
fn rebuild_in(alloc: Global, world: &mut World, pool: &[u8], log: &[Entry]) -> Result<(), Memory>
    requires within { AllIn pool.now log.now }
    ensures same { OnOk result (world.new ≡ replay pool.now world.old log.now) }
{
    let mut devices = Devices::of(alloc, world)?;
    redo_all(alloc, world, &mut devices, pool, log)?;
    take_devices(alloc, world, &devices)
}

impl MemBoard {
    ghost use Rattle.ls_memboard.specs.Seen.{sight_of};

    /// The world after the first calls, so many.
    pub(crate) fn world_after(&self, calls: usize) -> Result<World, Memory>
        requires { calls ≤ length self.now.log.items }
        ensures same { IfOk result (λ w. w
            ≡ replay self.now.pool.items self.now.start (take calls self.now.log.items)) }
    {
        rebuild(self.alloc, &self.start, &self.pool, &self.log[..calls])
    }

    /// The world as it is now.
    pub fn world(&self) -> Result<World, Memory>
        ensures same { IfOk result (λ w. w ≡ (sight_of self.now).world) }
    {
        self.world_after(self.log.len())
    }
}
