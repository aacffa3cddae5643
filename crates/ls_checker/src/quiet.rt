//! Whether an action touches nothing that is named.
ghost use Rattle.std.specs.Prelude.{◌≡◌, ◌↔◌, ◌⊎◌, None, IsTrue, IfOk};
ghost use Rattle.ls_board.specs.declared.action.Action.TheVariants as actions;
ghost use Rattle.ls_board.specs.Effect.{slot_at, after, file_at};
ghost use Rattle.ls_board.specs.Gatekeeper.{sid_of, record_at};
ghost use Rattle.ls_formats.specs.FileNames.{IsFileName, name_text};
ghost use Rattle.ls_naming.specs.Named.{NamesSlot, NamesKey, NamesEnrolled};
ghost use Rattle.ls_record.specs.Rows.{IsRecord};
ghost use Rattle.ls_sealing.specs.Protectors.{has_weaver};
ghost use Rattle.ls_standing.specs.Quiet.{IsUnnamed, IsQuiet};
ghost use Rattle.ls_weaver.specs.Slots.{slot_after};

use crate::named_slots::names_slot_of;
use byteorder::{BigEndian, ByteOrder};
use ls_board::{Action, Counter, World};
use ls_bytes::Memory;
use ls_formats::FileName;
use ls_gatekeeper::Gatekeeper;
use ls_naming::{names_enrolled, names_file, names_key};
use ls_record::Record;
use ls_weaver::Slot;
use std::alloc::Global;

/// A board has Weaver where it has slots.
pub(crate) fn has_weaver(world: &World) -> bool
    ensures same { result ≡ has_weaver world.now }
{
    world.slots.len() > 0
}

// ---- files

/// Whether it is neither a settings file nor one that the record names.
fn is_unnamed_file(world: &World, holder: &Record, name: &FileName) -> bool
    requires kept { IsRecord holder.now }
    requires spelled { IsFileName name.now }
    ensures decided { IsTrue result ↔ IsUnnamed world.now holder.now (name_text name.now) }
{
    match name {
        FileName::Settings(_) => false,
        FileName::Protector(name) => !names_file(holder, has_weaver(world), name),
    }
}

/// Whether no settings file and no file that the record names has this name.
fn is_unnamed(world: &World, holder: &Record, name: &[u8]) -> bool
    ensures decided { IsTrue result ↔ IsUnnamed world.now holder.now name.now }
{
    // The record keeps its rules, so what it names has the name of a part.
    let _ = &holder.users;
    match FileName::parse(name) {
        Ok(name) => is_unnamed_file(world, holder, &name),
        Err(_) => true,
    }
}

// ---- slots

pub(crate) fn same_slot(a: &Slot, b: &Slot) -> bool
    ensures same { IsTrue result ↔ (a.now ≡ b.now) }
{
    a == b
}

/// Whether the record doesn't name the slot.
fn is_unnamed_slot(alloc: Global, world: &World, holder: &Record, slot: u32) -> Result<bool, Memory>
    ensures decided { IfOk result (λ unnamed. IsTrue unnamed
        ↔ (¬ NamesSlot (has_weaver world.now) holder.now (file_at world.now) slot)) }
{
    Ok(!names_slot_of(alloc, world, holder, slot)?)
}

/// Whether a reading leaves the slot as it was.
fn is_left_by(slot: &Slot, key: &[u8; 16], moment: u64) -> bool
    ensures decided { IsTrue result ↔ (slot_after slot.now key.now moment ≡ slot.now) }
{
    let mut read = *slot;
    read.read(key, moment);
    same_slot(&read, slot)
}

/// Whether a reading of the slot of this number leaves it as it was. One that isn't there stays so.
fn reading_leaves_slot(world: &World, slot: u32, key: &[u8; 16], moment: u64) -> bool
    ensures decided { IsTrue result
        ↔ (slot_at (after world.now (actions.WeaverRead slot key.now moment) 0) slot
        ≡ slot_at world.now slot) }
{
    match world.slots.get(slot) {
        None => true,
        Some(slot) => is_left_by(slot, key, moment),
    }
}

/// Whether a reading of the slot is quiet.
fn is_quiet_reading(
    alloc: Global,
    world: &World,
    holder: &Record,
    slot: u32,
    key: &[u8; 16],
    moment: u64,
) -> Result<bool, Memory>
    ensures decided { IfOk result (λ quiet. IsTrue quiet
        ↔ IsQuiet world.now holder.now (actions.WeaverRead slot key.now moment)) }
{
    let unnamed = is_unnamed_slot(alloc, world, holder, slot)?;
    Ok(unnamed || reading_leaves_slot(world, slot, key, moment))
}

// ---- the Gatekeeper's records

/// Whether two ids have the same failures, or no record both.
fn same_counter(a: Option<Counter>, b: Option<Counter>) -> bool
    ensures same { IsTrue result ↔ (a ≡ b) }
{
    a == b
}

/// The id that stands in a handle.
fn sid_of(handle: &[u8; 49]) -> u64
    ensures same { result ≡ sid_of handle.now }
{
    BigEndian::read_u64(&handle[1..])
}

/// Whether the record doesn't name the Gatekeeper's record of this id.
pub(crate) fn is_unnamed_record(world: &World, holder: &Record, sid: u64) -> bool
    ensures decided { IsTrue result
        ↔ (¬ NamesEnrolled (has_weaver world.now) holder.now sid) }
{
    !names_enrolled(holder, has_weaver(world), sid)
}

/// Whether a check of the handle leaves the record of its id as it was.
fn check_leaves_record(
    alloc: Global,
    world: &World,
    handle: &[u8; 49],
    password: &[u8],
    moment: u64,
) -> Result<bool, Memory>
    ensures decided { IfOk result (λ leaves. IsTrue leaves
        ↔ (record_at (after world.now (actions.GkVerify handle.now password.now moment) 0).gk
        (sid_of handle.now) ≡ record_at world.now.gk (sid_of handle.now))) }
{
    let mut device = Gatekeeper::of(world.gk_key, world.gk.copy(alloc)?);
    let sid = sid_of(handle);
    let before = device.records().find(sid);
    device.verify(handle, password, moment);
    Ok(same_counter(device.records().find(sid), before))
}

/// Whether a check of the handle is quiet.
fn is_quiet_check(
    alloc: Global,
    world: &World,
    holder: &Record,
    handle: &[u8; 49],
    password: &[u8],
    moment: u64,
) -> Result<bool, Memory>
    ensures decided { IfOk result (λ quiet. IsTrue quiet
        ↔ IsQuiet world.now holder.now (actions.GkVerify handle.now password.now moment)) }
{
    let leaves = check_leaves_record(alloc, world, handle, password, moment)?;
    Ok(is_unnamed_record(world, holder, sid_of(handle)) || leaves)
}

// ---- keys and the cell

/// Whether the record doesn't name the key of this alias.
pub(crate) fn is_unnamed_key(holder: &Record, alias: u64) -> bool
    ensures decided { IsTrue result ↔ (¬ NamesKey holder.now alias) }
{
    !names_key(holder, alias)
}

/// Whether the record names no arming.
pub(crate) fn is_disarmed(holder: &Record) -> bool
    ensures decided { IsTrue result ↔ (holder.now.armed ≡ None) }
{
    holder.armed.is_none()
}

/// Whether the cell may be emptied: the record names no arming, or the cell is empty.
fn may_empty_cell(world: &World, holder: &Record) -> bool
    ensures decided { IsTrue result
        ↔ ((holder.now.armed ≡ None) ⊎ (world.now.cell ≡ None)) }
{
    is_disarmed(holder) || world.cell.is_none()
}

// ---- all actions

/// Whether an action is quiet in a world with this record: whether it changes no settings file and
/// nothing that the record names.
pub fn is_quiet(
    alloc: Global,
    world: &World,
    holder: &Record,
    action: &Action,
) -> Result<bool, Memory>
    ensures decided { IfOk result (λ quiet. IsTrue quiet
        ↔ IsQuiet world.now holder.now action.now) }
{
    match action {
        Action::Make { name, .. }
        | Action::Put { name, .. }
        | Action::Poke { name, .. }
        | Action::Remove { name } => Ok(is_unnamed(world, holder, name.as_slice())),
        Action::WeaverWrite { slot, .. } => is_unnamed_slot(alloc, world, holder, *slot),
        Action::WeaverRead { slot, key, moment } => {
            is_quiet_reading(alloc, world, holder, *slot, key, *moment)
        }
        Action::GkEnroll { sid } | Action::GkForget { sid } => {
            Ok(is_unnamed_record(world, holder, *sid))
        }
        Action::GkVerify {
            handle,
            password,
            moment,
        } => is_quiet_check(alloc, world, holder, handle, password.as_slice(), *moment),
        Action::KeyPut { alias, .. } | Action::KeyDrop { alias } => {
            Ok(is_unnamed_key(holder, *alias))
        }
        Action::ResumeStore { .. } => Ok(is_disarmed(holder)),
        Action::ResumeTake => Ok(may_empty_cell(world, holder)),
        Action::List
        | Action::Read { .. }
        | Action::Sync
        | Action::GkSign { .. }
        | Action::GkList
        | Action::KeyOpen { .. }
        | Action::KeyList
        | Action::Hear { .. }
        | Action::Say { .. }
        | Action::Now
        | Action::Draw { .. } => Ok(true),
    }
}
