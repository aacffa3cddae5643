//! Whether the devices of a world keep nothing that its record doesn't name.
ghost use Rattle.std.specs.Prelude.{◌≡◌, ◌<◌, ◌↔◌, ℕ, length, None, IsTrue, IfOk};
ghost use Rattle.ls_board.specs.Effect.{file_at, slot_at};
ghost use Rattle.ls_board.specs.Gatekeeper.{record_at};
ghost use Rattle.ls_board.specs.Keys.{key_at};
ghost use Rattle.ls_checker.specs.BareRows.{HasKeyAt};
ghost use Rattle.ls_naming.specs.Named.{NamesSlot, NamesKey, NamesEnrolled};
ghost use Rattle.ls_sealing.specs.Protectors.{has_weaver};
ghost use Rattle.ls_weaver.specs.Slots.{blank_slot};

use crate::named_slots::names_slot_of;
use crate::quiet::{is_unnamed_key, is_unnamed_record, same_slot};
use ls_board::World;
use ls_bytes::Memory;
use ls_record::Record;
use ls_weaver::Slot;
use std::alloc::Global;

// ---- slots

/// Whether the slot of this number is blank, as one that isn't there.
fn is_blank(world: &World, slot: u32) -> bool
    ensures decided { IsTrue result ↔ (slot_at world.now slot ≡ blank_slot) }
{
    match world.slots.get(slot) {
        None => true,
        Some(slot) => same_slot(slot, &Slot::blank()),
    }
}

/// Whether the record names the slot, or it is blank.
fn keeps_slot(alloc: Global, world: &World, holder: &Record, slot: u32) -> Result<bool, Memory>
    ensures decided { IfOk result (λ keeps. IsTrue keeps
        ↔ ((¬ NamesSlot (has_weaver world.now) holder.now (file_at world.now) slot)
        → slot_at world.now slot ≡ blank_slot)) }
{
    let named = names_slot_of(alloc, world, holder, slot)?;
    Ok(named || is_blank(world, slot))
}

/// Whether each slot that the record doesn't name is blank.
pub(crate) fn keeps_named_slots(
    alloc: Global,
    world: &World,
    holder: &Record,
) -> Result<bool, Memory>
    ensures decided { IfOk result (λ keeps. IsTrue keeps
        ↔ ((slot : ℕ) → slot < length world.now.slots
        → (¬ NamesSlot (has_weaver world.now) holder.now (file_at world.now) slot)
        → slot_at world.now slot ≡ blank_slot)) }
{
    for slot in 0..world.slots.len() {
        if !keeps_slot(alloc, world, holder, slot)? {
            return Ok(false);
        }
    }
    Ok(true)
}

// ---- the Gatekeeper's records

/// Whether the record names the Gatekeeper's record at this place, if there is one.
fn keeps_counter(world: &World, holder: &Record, at: u32) -> bool
    ensures decided { IsTrue result ↔ HasKeyAt
        (λ sid. ¬ (¬ NamesEnrolled (has_weaver world.now) holder.now sid)) world.now.gk at }
{
    match world.gk.get(at) {
        None => true,
        Some(row) => !is_unnamed_record(world, holder, row.sid),
    }
}

/// Whether the record names each record of the Gatekeeper.
pub(crate) fn keeps_named_counters(world: &World, holder: &Record) -> bool
    ensures decided { IsTrue result ↔ ((sid : ℕ)
        → (¬ NamesEnrolled (has_weaver world.now) holder.now sid)
        → record_at world.now.gk sid ≡ None) }
{
    for at in 0..world.gk.len() {
        if !keeps_counter(world, holder, at) {
            return false;
        }
    }
    true
}

// ---- keys

/// Whether the record names the key at this place, if there is one.
fn keeps_key(world: &World, holder: &Record, at: u32) -> bool
    ensures decided { IsTrue result
        ↔ HasKeyAt (λ alias. ¬ (¬ NamesKey holder.now alias)) world.now.keys at }
{
    match world.keys.get(at) {
        None => true,
        Some(row) => !is_unnamed_key(holder, row.alias),
    }
}

/// Whether the record names each key.
pub(crate) fn keeps_named_keys(world: &World, holder: &Record) -> bool
    ensures decided { IsTrue result ↔ ((alias : ℕ) → (¬ NamesKey holder.now alias)
        → key_at world.now.keys alias ≡ None) }
{
    for at in 0..world.keys.len() {
        if !keeps_key(world, holder, at) {
            return false;
        }
    }
    true
}
