//! What a board in memory keeps beside its files: devices, input and output as they are now.
ghost use Rattle.std.specs.Prelude.{◌≡◌, ◌≤◌, ◌+◌, [], slice_set, slice_index_or, IfOk, OnOk, vec_len, vec_capacity};
ghost use Rattle.ls_memboard.specs.Calls.{call_of, IsIn};
ghost use Rattle.ls_memboard.specs.Replay.{after_call};
ghost use Rattle.ls_weaver.specs.Slots.{blank_slot, written, slot_after};

use crate::call::{Entry, Kind};
use crate::pool::{append, part};
use crate::tape::Tape;
use ls_board::World;
use ls_bytes::Memory;
use ls_gatekeeper::Gatekeeper;
use ls_keys::{KeyStore, ResumeCell};
use ls_weaver::Weaver;
use std::alloc::Global;

/// The devices, what is left to be heard, and what was said.
pub struct Devices {
    pub(crate) slots: Weaver,
    pub(crate) gk: Gatekeeper,
    pub(crate) keys: KeyStore,
    pub(crate) cell: ResumeCell,
    pub(crate) input: Tape<u8>,
    pub(crate) said: Vec<u8>,
    pub(crate) moments: Tape<u64>,
    pub(crate) noise: Tape<u8>,
}

// One call lets devices go, as one lets go of a world.
impl Drop for Devices {
    fn drop(self) {
        let Devices {
            slots: _,
            gk: _,
            keys: _,
            cell: _,
            input: _,
            said: _,
            moments: _,
            noise: _,
        } = self;
    }
}

/// Writes a slot, if there is one of this number.
fn write_slot(slots: &mut Weaver, slot: u32, key: &[u8; 16], value: &[u8; 16])
    ensures written { slots.new ≡ slice_set slots.old slot (written key.now value.now) }
{
    if slot < slots.len() {
        slots.write(slot, key, value);
    }
}

/// Reads a slot, if there is one of this number.
fn read_slot(slots: &mut Weaver, slot: u32, key: &[u8; 16], moment: u64)
    ensures after { slots.new ≡ slice_set slots.old slot
        (slot_after (slice_index_or slots.old slot blank_slot) key.now moment) }
{
    if slot < slots.len() {
        let _ = slots.read(slot, key, moment);
    }
}

impl Devices {
    ghost use Rattle.ls_board.specs.Worlds.{blank_world};
    ghost use Rattle.ls_memboard.specs.Beside.{bare, beside};

    /// The devices of a world.
    pub(crate) fn of(alloc: Global, world: &World) -> Result<Devices, Memory>
        ensures same { IfOk result (λ d. beside d ≡ bare world.now) }
    {
        let mut devices = Devices::empty(alloc)?;
        devices.take(alloc, world)?;
        Ok(devices)
    }

    /// Devices that hold nothing.
    fn empty(alloc: Global) -> Result<Devices, Memory>
        ensures empty { IfOk result (λ d. beside d ≡ bare (blank_world 0)) }
    {
        Ok(Devices {
            slots: Weaver::new(alloc, 0)?,
            gk: Gatekeeper::new(alloc, [0; 32]),
            keys: KeyStore::new(alloc),
            cell: ResumeCell::new(),
            input: Tape::new(alloc),
            said: Vec::new(alloc),
            moments: Tape::new(alloc),
            noise: Tape::new(alloc),
        })
    }

    /// Takes over what the world has of devices.
    fn take(&mut self, alloc: Global, world: &World) -> Result<(), Memory>
        ensures same { OnOk result (beside self.new ≡ bare world.now) }
    {
        self.take_stored(alloc, world)?;
        self.take_streams(alloc, world)
    }

    /// Takes over what the world's devices store, one at a time.
    fn take_stored(&mut self, alloc: Global, world: &World) -> Result<(), Memory>
        ensures taken { OnOk result (beside self.new ≡ record (beside self.old) {
          slots = world.now.slots;
          gk_key = world.now.gk_key;
          gk = world.now.gk;
          keys = world.now.keys;
          cell = world.now.cell;
        }) }
    {
        self.slots = world.slots.copy(alloc)?;
        self.gk = Gatekeeper::of(world.gk_key, world.gk.copy(alloc)?);
        self.keys = KeyStore::of(world.keys.copy(alloc)?);
        self.cell = ResumeCell::of(world.cell);
        Ok(())
    }

    /// Takes over what the world hears, said and draws next, one at a time.
    fn take_streams(&mut self, alloc: Global, world: &World) -> Result<(), Memory>
        ensures taken { OnOk result (beside self.new ≡ record (beside self.old) {
          input = world.now.input;
          said = world.now.said;
          moments = world.now.moments;
          noise = world.now.noise;
        }) }
    {
        self.input = Tape::of(alloc, world.input.as_slice())?;
        self.said = world.said.as_slice().to_vec(alloc)?;
        self.moments = Tape::of(alloc, world.moments.as_slice())?;
        self.noise = Tape::of(alloc, world.noise.as_slice())?;
        Ok(())
    }

    /// Makes room for so many more records, keys and said bytes.
    pub(crate) fn make_room(&mut self, actions: u32, bytes: usize) -> Result<(), Memory>
        ensures same { beside self.new ≡ beside self.old }
        ensures records { self.old.gk.spare ≤ self.new.gk.spare }
        ensures keys { self.old.keys.spare ≤ self.new.keys.spare }
        ensures said { vec_len self.new.said ≡ vec_len self.old.said }
        ensures capacity { vec_capacity self.old.said ≤ vec_capacity self.new.said }
        ensures room { OnOk result ((actions ≤ self.new.gk.spare) × (actions ≤ self.new.keys.spare)
            × (vec_len self.new.said + bytes ≤ vec_capacity self.new.said)) }
    {
        self.gk.reserve(actions)?;
        self.keys.reserve(actions)?;
        self.said.reserve(bytes)?;
        Ok(())
    }

    /// Does what a kept call did beside the files.
    pub(crate) fn redo(&mut self, pool: &[u8], e: &Entry)
        requires within { IsIn pool.now e.now.kept }
        requires record { 1 ≤ self.old.gk.spare }
        requires key { 1 ≤ self.old.keys.spare }
        requires said { vec_len self.old.said + e.now.kept.bytes ≤ vec_capacity self.old.said }
        ensures done { beside self.new ≡ bare (after_call (beside self.old)
            (call_of pool.now e.now.kept) e.now.whole e.now.count) }
        ensures records { self.old.gk.spare ≤ self.new.gk.spare + 1 }
        ensures keys { self.old.keys.spare ≤ self.new.keys.spare + 1 }
        ensures longer { vec_len self.new.said ≤ vec_len self.old.said + e.now.kept.bytes }
        ensures capacity { vec_capacity self.old.said ≤ vec_capacity self.new.said }
    {
        if !e.whole {
            return;
        }
        let bytes = part(pool, e.kept.at + e.kept.name, e.kept.bytes);
        match e.kept.kind {
            Kind::WeaverWrite { slot, key, value } => {
                write_slot(&mut self.slots, slot, &key, &value);
            }
            Kind::WeaverRead { slot, key, moment } => {
                read_slot(&mut self.slots, slot, &key, moment);
            }
            Kind::GkEnroll { sid } => self.gk.enroll(sid),
            Kind::GkVerify { handle, moment } => {
                let _ = self.gk.verify(&handle, bytes, moment);
            }
            Kind::GkForget { sid } => self.gk.forget(sid),
            Kind::KeyPut { alias, key } => self.keys.put(alias, &key),
            Kind::KeyDrop { alias } => self.keys.drop_key(alias),
            Kind::ResumeStore { key } => self.cell.store(&key),
            Kind::ResumeTake => {
                let _ = self.cell.take();
            }
            Kind::Hear { .. } => self.input.skip(e.count),
            Kind::Say => append(&mut self.said, bytes),
            Kind::Now => self.moments.advance(),
            Kind::Draw { len } => self.noise.skip(len as usize),
            _ => {}
        }
    }
}
